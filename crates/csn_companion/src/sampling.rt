//! Test vectors of a rule: blocks that are strings, and blocks that are nearly strings.

ghost use Rattle.std.specs.Prelude.{◌≡◌, ◌≢◌, ◌≤◌, Err, IfErr, IfOk, length};
ghost use Rattle.csn_io.specs.Faults.{Keeps, Rose};
ghost use Rattle.csn_plan.specs.declared.compiling.TheConstants.{MOST_DESCRIPTION};
ghost use Rattle.csn_lines.specs.declared.fault.Fault.{Fault};
ghost use Rattle.csn_companion.specs.Outside.{IsFinished};

use crate::asked::{Job, Order};
use crate::lines::Lines;
use crate::opening::push_line;
use csn_bits::NoMemory;
use csn_certify::Plan;
use csn_io::Sink;
use csn_lines::{Fault, pass_on};
use csn_plan::{Ended, plan_text};
use csn_reasons::{Asked, facts_of};
use csn_vectors::{BlockMaker, push_cover, push_nearly};
use std::alloc::Global;

/// How many bytes of lines wait until they are handed to the sink.
const PIECE: usize = 65_536;

/// Writes the lines of blocks of a plan, as many as are asked for. Where none is found it stops, and the end is that of a
/// run that refused a line.
pub fn make_blocks<K: Sink>(
    alloc: Global,
    order: Order,
    plan: &Plan,
    out: &mut K,
    lines: &mut Lines,
) -> Result<Ended, Fault>
    requires unfailed { K.faults out.old ≡ 0 }
    ensures finished { IfOk result IsFinished }
    ensures not_read { result ≢ Err Fault.Read }
    ensures write { result ≡ Err Fault.Write → Rose (K.faults out.old) (K.faults out.new) }
    ensures out { Keeps (K.steady out.old) (K.steady out.new) (K.faults out.old) (K.faults out.new) (result ≡ Err Fault.Write) }
{
    let Ok(mut maker) = BlockMaker::new(alloc, plan, order.seed) else {
        return Err(Fault::Memory);
    };
    for _ in 0..order.count {
        if !push_block(&mut maker, order.trees, &mut lines.pending)? {
            return Ok(Ended::SomeRefused);
        }
        if lines.pending.len() >= PIECE {
            pass_on(&mut lines.pending, out)?;
        }
    }
    Ok(Ended::Done)
}

/// Writes the line of the next block. Whether one was found. Where memory is wanting, nothing is written.
fn push_block(maker: &mut BlockMaker<'_>, trees: bool, pending: &mut Vec<u8>) -> Result<bool, Fault>
    ensures { IfErr result (λ fault. fault ≡ Fault.Memory) }
{
    let start = pending.len();
    match maker.push_next(trees, pending) {
        Ok(found) => Ok(found),
        Err(NoMemory) => {
            pending.truncate(start);
            Err(Fault::Memory)
        }
    }
}

/// Writes the lines of blocks that cover a rule, or of blocks that are nearly strings, or the line that says why there is no
/// plan.
pub fn push_vectors(
    alloc: Global,
    job: Job,
    about: Asked<'_>,
    out: &mut Vec<u8>,
) -> Result<Ended, NoMemory>
    requires { length about.text.now ≤ MOST_DESCRIPTION }
    ensures { IfOk result IsFinished }
{
    let plan = match plan_text(alloc, about.text, about.name, about.reading) {
        Ok(plan) => plan,
        Err(reason) => return Ok(push_line(&reason, out)?),
    };
    let facts = facts_of(alloc, about)?;
    match job {
        Job::Nearly => push_nearly(alloc, &plan, &facts, out)?,
        _ => push_cover(alloc, &plan, &facts, out)?,
    }
    Ok(Ended::Done)
}
