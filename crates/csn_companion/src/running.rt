//! The top call: what is asked for and the outside in, an end out.

ghost use Rattle.std.specs.Prelude.{◌≡◌, ◌≢◌, ◌⊎◌, ◌≤◌, [], Err, IfOk, length};
ghost use Rattle.csn_plan.specs.declared.compiling.TheConstants.{MOST_DESCRIPTION};
ghost use Rattle.csn_io.specs.Faults.{Keeps, Rose};
ghost use Rattle.csn_io.specs.Put.{FlushedAll};
ghost use Rattle.csn_lines.specs.Ends.{BlamesStreams, end_of};
ghost use Rattle.csn_companion.specs.Outside.{CannotRead, IsFinished, end_with};

use crate::asked::{Asked, Job};
use crate::lines::Lines;
use crate::opening::{fetch_text, plan_of, refuse};
use crate::sampling::{make_blocks, push_vectors};
use csn_bits::NoMemory;
use csn_certify::Plan;
use csn_explaining::{
    BlockTeller, Drawing, FieldLines, FieldPlan, LeafWriter, LineTeller, Table, TreeTeller,
    push_foot, push_head,
};
use csn_io::{Shelf, Sink, Source};
use csn_lines::{Fault, flush, pass_on};
use csn_plan::Ended;
use csn_reasons::{check, list_nodes};
use std::alloc::Global;

/// The end of a job that answered all lines, by whether it refused one.
fn end_by_lines(refused: bool) -> Ended
    ensures { result ≡ end_of refused }
{
    if refused {
        Ended::SomeRefused
    } else {
        Ended::Done
    }
}

/// Answers each line of the input.
fn answer_lines<T: LineTeller, S: Source, K: Sink>(
    alloc: Global,
    teller: &mut T,
    input: &mut S,
    out: &mut K,
    lines: &mut Lines,
) -> Result<Ended, Fault>
    requires line { lines.old.line.items ≡ [] }
    requires unfailed { K.faults out.old ≡ 0 }
    ensures finished { IfOk result IsFinished }
    ensures blames { BlamesStreams result (S.steady input.old) (S.steady input.new) (S.faults input.old) (S.faults input.new)
        (K.steady out.old) (K.steady out.new) (K.faults out.old) (K.faults out.new) }
{
    lines.answer_all(teller, alloc, input, out)?;
    Ok(end_by_lines(lines.refused))
}

/// Answers each line of the input as a writer of leaves writes the block of the line.
fn answer_blocks<W: LeafWriter + Drop, S: Source, K: Sink>(
    alloc: Global,
    plan: &Plan,
    input: &mut S,
    out: &mut K,
    lines: &mut Lines,
) -> Result<Ended, Fault>
    requires line { lines.old.line.items ≡ [] }
    requires unfailed { K.faults out.old ≡ 0 }
    ensures finished { IfOk result IsFinished }
    ensures blames { BlamesStreams result (S.steady input.old) (S.steady input.new) (S.faults input.old) (S.faults input.new)
        (K.steady out.old) (K.steady out.new) (K.faults out.old) (K.faults out.new) }
{
    let Ok(fields) = FieldPlan::new(alloc, plan) else {
        return Err(Fault::Memory);
    };
    let mut teller = BlockTeller::<W>::new(alloc, &fields);
    answer_lines(alloc, &mut teller, input, out, lines)
}

/// Draws the block of each line of the input on a page about the rule with this name.
fn draw<S: Source, K: Sink>(
    alloc: Global,
    name: &str,
    plan: &Plan,
    input: &mut S,
    out: &mut K,
    lines: &mut Lines,
) -> Result<Ended, Fault>
    requires line { lines.old.line.items ≡ [] }
    requires unfailed { K.faults out.old ≡ 0 }
    ensures finished { IfOk result IsFinished }
    ensures blames { BlamesStreams result (S.steady input.old) (S.steady input.new) (S.faults input.old) (S.faults input.new)
        (K.steady out.old) (K.steady out.new) (K.faults out.old) (K.faults out.new) }
{
    if push_head(&mut lines.pending, name.as_bytes()).is_err() {
        return Err(Fault::Memory);
    }
    match answer_blocks::<Drawing, S, K>(alloc, plan, input, out, lines) {
        Ok(ended) if push_foot(&mut lines.pending).is_ok() => Ok(ended),
        Ok(_) => Err(Fault::Memory),
        Err(fault) => Err(fault),
    }
}

/// Answers each line of the input by a plan.
fn answer_by_plan<S: Source, K: Sink>(
    alloc: Global,
    asked: Asked<'_>,
    plan: &Plan,
    input: &mut S,
    out: &mut K,
    lines: &mut Lines,
) -> Result<Ended, Fault>
    requires line { lines.old.line.items ≡ [] }
    requires unfailed { K.faults out.old ≡ 0 }
    ensures finished { IfOk result IsFinished }
    ensures blames { BlamesStreams result (S.steady input.old) (S.steady input.new) (S.faults input.old) (S.faults input.new)
        (K.steady out.old) (K.steady out.new) (K.faults out.old) (K.faults out.new) }
{
    match asked.job {
        Job::Fields => answer_blocks::<FieldLines, S, K>(alloc, plan, input, out, lines),
        Job::Show => answer_blocks::<Table, S, K>(alloc, plan, input, out, lines),
        Job::Picture => draw(alloc, asked.name, plan, input, out, lines),
        Job::Blocks(order) => make_blocks(alloc, order, plan, out, lines),
        _ => {
            let mut teller = TreeTeller::new(alloc, plan);
            answer_lines(alloc, &mut teller, input, out, lines)
        }
    }
}

/// Writes what is told of the rule of a text.
fn push_report(
    alloc: Global,
    asked: Asked<'_>,
    text: &[u8],
    out: &mut Vec<u8>,
) -> Result<Ended, NoMemory>
    requires { length text.now ≤ MOST_DESCRIPTION }
{
    let about = csn_reasons::Asked {
        file: asked.file,
        text,
        name: asked.name.as_bytes(),
        reading: asked.reading,
    };
    match asked.job {
        Job::Nodes => list_nodes(alloc, about, out),
        Job::Cover | Job::Nearly => push_vectors(alloc, asked.job, about, out),
        _ => check(alloc, about, out),
    }
}

/// The end of a run that tells of a rule alone.
fn told_end(ended: Ended) -> Ended
    ensures { IsFinished result }
{
    match ended {
        Ended::Done => Ended::Done,
        Ended::NotCertified => Ended::NotCertified,
        _ => Ended::BadDescription,
    }
}

/// Tells of the rule alone, in words.
fn report<B: Shelf>(
    alloc: Global,
    asked: Asked<'_>,
    shelf: &mut B,
    pending: &mut Vec<u8>,
) -> Result<Ended, Fault>
    ensures finished { IfOk result IsFinished }
    ensures read { result ≡ Err Fault.Read
        → CannotRead (B.files shelf.old) (B.faults shelf.old) (B.faults shelf.new) (B.last_fault shelf.new) asked.entry.file.now }
    ensures not_write { result ≢ Err Fault.Write }
    ensures shelf { Keeps (B.steady shelf.old) (B.steady shelf.new) (B.faults shelf.old) (B.faults shelf.new) (result ≡ Err Fault.Read) }
{
    let text = match fetch_text(alloc, shelf, asked.file) {
        Ok(text) => text,
        Err(fault) => return Err(fault),
    };
    match push_report(alloc, asked, &text, pending) {
        Ok(ended) => Ok(told_end(ended)),
        Err(NoMemory) => {
            pending.clear();
            Err(Fault::Memory)
        }
    }
}

/// Answers the lines of the input by the rule that is asked for.
fn answer_by_rule<B: Shelf, S: Source, K: Sink>(
    alloc: Global,
    asked: Asked<'_>,
    shelf: &mut B,
    input: &mut S,
    out: &mut K,
    lines: &mut Lines,
) -> Result<Ended, Fault>
    requires line { lines.old.line.items ≡ [] }
    requires unfailed { K.faults out.old ≡ 0 }
    ensures finished { IfOk result IsFinished }
    ensures read { result ≡ Err Fault.Read → Rose (S.faults input.old) (S.faults input.new)
        ⊎ CannotRead (B.files shelf.old) (B.faults shelf.old) (B.faults shelf.new) (B.last_fault shelf.new) asked.entry.file.now }
    ensures write { result ≡ Err Fault.Write → Rose (K.faults out.old) (K.faults out.new) }
    ensures shelf { Keeps (B.steady shelf.old) (B.steady shelf.new) (B.faults shelf.old) (B.faults shelf.new) (result ≡ Err Fault.Read) }
    ensures input { Keeps (S.steady input.old) (S.steady input.new) (S.faults input.old) (S.faults input.new) (result ≡ Err Fault.Read) }
    ensures out { Keeps (K.steady out.old) (K.steady out.new) (K.faults out.old) (K.faults out.new) (result ≡ Err Fault.Write) }
{
    match plan_of(alloc, shelf, asked) {
        Ok(plan) => answer_by_plan(alloc, asked, &plan, input, out, lines),
        Err(why) => refuse(why, &mut lines.pending),
    }
}

/// Does what is asked for, up to the answers that wait.
fn perform<B: Shelf, S: Source, K: Sink>(
    alloc: Global,
    asked: Asked<'_>,
    shelf: &mut B,
    input: &mut S,
    out: &mut K,
    lines: &mut Lines,
) -> Result<Ended, Fault>
    requires line { lines.old.line.items ≡ [] }
    requires unfailed { K.faults out.old ≡ 0 }
    ensures finished { IfOk result IsFinished }
    ensures read { result ≡ Err Fault.Read → Rose (S.faults input.old) (S.faults input.new)
        ⊎ CannotRead (B.files shelf.old) (B.faults shelf.old) (B.faults shelf.new) (B.last_fault shelf.new) asked.entry.file.now }
    ensures write { result ≡ Err Fault.Write → Rose (K.faults out.old) (K.faults out.new) }
    ensures shelf { Keeps (B.steady shelf.old) (B.steady shelf.new) (B.faults shelf.old) (B.faults shelf.new) (result ≡ Err Fault.Read) }
    ensures input { Keeps (S.steady input.old) (S.steady input.new) (S.faults input.old) (S.faults input.new) (result ≡ Err Fault.Read) }
    ensures out { Keeps (K.steady out.old) (K.steady out.new) (K.faults out.old) (K.faults out.new) (result ≡ Err Fault.Write) }
{
    match asked.job {
        Job::Check | Job::Nodes | Job::Cover | Job::Nearly => {
            report(alloc, asked, shelf, &mut lines.pending)
        }
        _ => answer_by_rule(alloc, asked, shelf, input, out, lines),
    }
}

/// Hands on what is pending and flushes the sink, also where memory is wanting, but not after a fault of the sink.
fn finish<K: Sink>(end: Result<Ended, Fault>, pending: &mut Vec<u8>, out: &mut K) -> Ended
    requires unfailed { end ≢ Err Fault.Write → K.faults out.old ≡ 0 }
    ensures end { result ≢ Ended.WriteFault → result ≢ Ended.NoMemory → result ≡ end_with end }
    ensures write { result ≡ Ended.WriteFault → (end_with end ≡ Ended.WriteFault) ⊎ Rose (K.faults out.old) (K.faults out.new) }
    ensures flushed { result ≢ Ended.WriteFault → result ≢ Ended.NoMemory → FlushedAll (K.taken out.new) (K.flushed out.new) }
    ensures out { Keeps (K.steady out.old) (K.steady out.new) (K.faults out.old) (K.faults out.new) (result ≡ Ended.WriteFault) }
{
    if let Err(Fault::Write) = end {
        return Ended::WriteFault;
    }
    let passed = pass_on(pending, out);
    if let Err(Fault::Write) = passed {
        return Ended::WriteFault;
    }
    if let Err(fault) = flush(out) {
        return fault.end();
    }
    if let Err(fault) = passed {
        return fault.end();
    }
    match end {
        Ok(ended) => ended,
        Err(fault) => fault.end(),
    }
}

/// Does what is asked for.
pub fn explain<B: Shelf, S: Source, K: Sink>(
    alloc: Global,
    asked: Asked<'_>,
    shelf: &mut B,
    input: &mut S,
    out: &mut K,
) -> Ended
    // A sink of which a call has failed is not asked again.
    requires unfailed { K.faults out.old ≡ 0 }

    // A fault comes only where the outside shows it.
    ensures read_fault { result ≡ Ended.ReadFault → Rose (S.faults input.old) (S.faults input.new)
        ⊎ CannotRead (B.files shelf.old) (B.faults shelf.old) (B.faults shelf.new) (B.last_fault shelf.new) asked.entry.file.now }
    ensures write_fault { result ≡ Ended.WriteFault → Rose (K.faults out.old) (K.faults out.new) }

    // All that the sink took is flushed.
    ensures flushed { result ≢ Ended.WriteFault → result ≢ Ended.NoMemory → FlushedAll (K.taken out.new) (K.flushed out.new) }

    // The words are those of a job. No fault is swallowed: a count rises only where the end tells of it.
    ensures usage { result ≢ Ended.Usage }
    ensures shelf { Keeps (B.steady shelf.old) (B.steady shelf.new) (B.faults shelf.old) (B.faults shelf.new) (IsFinished result → ⊥) }
    ensures input { Keeps (S.steady input.old) (S.steady input.new) (S.faults input.old) (S.faults input.new) (IsFinished result → ⊥) }
    ensures out { Keeps (K.steady out.old) (K.steady out.new) (K.faults out.old) (K.faults out.new) (IsFinished result → ⊥) }
{
    let mut lines = Lines::new(alloc);
    let outcome = perform(alloc, asked, shelf, input, out, &mut lines);
    finish(outcome, &mut lines.pending, out)
}
