ghost use Rattle.std.specs.Prelude.{◌≡◌, ◌≢◌, ◌↔◌, ◌⊎◌, ◌++◌, [], List, ℕ, Option, map, Err, IfOk, IfErr, OnOk};
ghost use Rattle.csn_io.specs.Got.{NothingLeft};
ghost use Rattle.csn_io.specs.Put.{Appended};
ghost use Rattle.csn_io.specs.ShelfFault.{LacksFile};
ghost use Rattle.csn_plan.specs.declared.compiling.TheConstants.{MOST_DESCRIPTION};
ghost use Rattle.csn_replay.specs.Watched.{Watched};
ghost use Rattle.csn_command.specs.Command.{IsCommand, IsReplay, IsRowOf, IsSegments, ReadsLines};
ghost use Rattle.csn_lines.specs.Ends.{BlamesStreams, end_of};
ghost use Rattle.csn_lines.specs.Progress.{AnswersAll, Stops};
ghost use Rattle.csn_lines.specs.Reading.{IsReady};
ghost use Rattle.csn_lines.specs.Jobs.{BeginsJob, LineJob, Steps, beginning};
ghost use Rattle.csn_lines.specs.Language.{of_plan};
ghost use Rattle.csn_lines.specs.LineState.{closing, nothing_kept};
ghost use Rattle.csn_lines.specs.Work.{answering};
ghost use Rattle.csn_run.specs.Outside.{CannotRead, GoesByFiles, HasTakenFew, IsAskedToFlush, IsFlushed, KeepsShelf, KeepsSink};
ghost use Rattle.csn_run.specs.Outside.{LeftByFetch, NamesNone, NamesSome, OverFiles, SinkFails, SourceFails};
ghost use Rattle.csn_run.specs.Job.{Asked, AsksFiles, EndsUnread, FetchesInOrder, JobEnds, LeavesStreams, end_with};
ghost use Rattle.csn_run.specs.Ran.{ComesToNoLine, Fails, FileFails, LacksOne, Ran, TellsFaults};
ghost use Rattle.csn_run.specs.Ran.{WritesFront, WritesPromptly, WritesResult, WritesToFeed, words_of};
ghost use Rattle.csn_run.specs.Result.{IsFinished, IsStopped, OldBlocksStay, RulesHaveOneTree};

use crate::comparing::compare_files;
use crate::laws::{known, lines_have_one_answer};
use crate::outside::Outside;
use crate::planned::{Unplanned, plan_of, refuse, text_plan_of};
use crate::reporting::report_plan;
use crate::soaking::soak_entry;
use crate::verifying::verify_file;
use csn_catalogue::Entry;
use csn_command::{Command, RuleCommand, RuleReport, RuleWords, command_of, read_words};
use csn_desc::Reading;
use csn_io::{Shelf, Sink, Source};
use csn_lines::{
    CaptureText, Fault, Lines, Migrate, Segments, ShowLines, WholeLines, WriteLines,
    answer_captures, answer_lines, flush, pass_on,
};
use csn_plan::{Ended, TextPlan, plan_of_entry, plans_of_entries};
use csn_replay::Watcher;
use csn_segment::Joiner;
use std::alloc::Global;

/// Reports on the rule of a file.
fn report<B: Shelf>(
    alloc: Global,
    report: RuleReport,
    rule: RuleWords<'_>,
    shelf: &mut B,
    pending: &mut Vec<u8>,
) -> Result<Ended, Fault>
    requires pending { pending.old.items ≡ [] }
    ensures ends { (words : List (List ℕ)) → IsRowOf words (Command.Report report rule.entry) → (watchers : List Watched) (left taken : Option (List ℕ))
        → JobEnds words (B.files shelf.old) watchers left left taken taken pending.new.items result }
    ensures read { result ≡ Err Fault.Read
        → CannotRead B.Shelf shelf.old shelf.new rule.entry.file.now }
    ensures not_write { result ≢ Err Fault.Write }
    ensures missing { LacksFile (B.files shelf.old) rule.entry.file.now → ((result ≡ Err Fault.Read) ⊎ (result ≡ Err Fault.Memory))
        × (pending.new.items ≡ []) }
    ensures fetched { LeftByFetch B.Shelf rule.entry.file.now MOST_DESCRIPTION shelf.old shelf.new }
    ensures shelf { KeepsShelf B.Shelf shelf.old shelf.new (result ≡ Err Fault.Read) }
{
    let plan = match plan_of(alloc, shelf, rule) {
        Ok(plan) => plan,
        Err(why) => return refuse(why, pending),
    };
    report_plan(alloc, report, plan, pending)
}

/// Answers each line of the input by the plan of a rule.
fn answer_by_plan<S: Source, K: Sink>(
    alloc: Global,
    command: RuleCommand,
    plan: &TextPlan,
    input: &mut S,
    out: &mut K,
    lines: &mut Lines,
) -> Result<Ended, Fault>
    requires ready { IsReady lines.old }
    requires unfailed { K.faults out.old ≡ 0 }
    ensures ok { OnOk result ((job : LineJob) → BeginsJob job (answering command (of_plan plan.now)) nothing_kept
        → AnswersAll (Steps job) closing (beginning job) (S.left input.old) (S.left input.new) (K.taken out.old) (K.taken out.new)
        lines.new.pending.items lines.new.refused) }
    ensures end { IfOk result (λ ended. ended ≡ end_of lines.new.refused) }
    ensures err { IfErr result (λ fault. (job : LineJob) → BeginsJob job (answering command (of_plan plan.now)) nothing_kept
        → Stops (Steps job) (beginning job) fault (S.left input.old) (S.left input.new) (K.taken out.old) (K.taken out.new)
        lines.new.pending.items) }
    ensures blames { BlamesStreams result (S.steady input.old) (S.steady input.new) (S.faults input.old) (S.faults input.new)
        (K.steady out.old) (K.steady out.new) (K.faults out.old) (K.faults out.new) }
{
    match command {
        RuleCommand::Show(form) => {
            let mut command = ShowLines::new(alloc, plan, form);
            answer_lines(alloc, &mut command, input, out, lines)
        }
        RuleCommand::Write(form) => {
            let mut command = WholeLines::new(alloc, WriteLines { form, plan });
            answer_lines(alloc, &mut command, input, out, lines)
        }
    }
}

/// Answers each line of the input by the rule of a file.
fn answer_by_rule<B: Shelf, S: Source, K: Sink>(
    alloc: Global,
    command: RuleCommand,
    rule: RuleWords<'_>,
    shelf: &mut B,
    input: &mut S,
    out: &mut K,
    lines: &mut Lines,
) -> Result<Ended, Fault>
    requires ready { IsReady lines.old }
    requires unfailed { K.faults out.old ≡ 0 }
    ensures ends { (words : List (List ℕ)) (watchers : List Watched) → IsRowOf words (Command.Answer command rule.entry)
        → JobEnds words (B.files shelf.old) watchers (S.left input.old) (S.left input.new)
        (K.taken out.old) (K.taken out.new) lines.new.pending.items result }
    ensures read { result ≡ Err Fault.Read → SourceFails S.Source input.old input.new
        ⊎ CannotRead B.Shelf shelf.old shelf.new rule.entry.file.now }
    ensures missing { LacksFile (B.files shelf.old) rule.entry.file.now → ((result ≡ Err Fault.Read) ⊎ (result ≡ Err Fault.Memory))
        × (input.new ≡ input.old) × (out.new ≡ out.old) × (lines.new.pending.items ≡ []) }
    ensures fetched { LeftByFetch B.Shelf rule.entry.file.now MOST_DESCRIPTION shelf.old shelf.new }
    ensures shelf { KeepsShelf B.Shelf shelf.old shelf.new (result ≡ Err Fault.Read) }
    ensures streams { LeavesStreams S.Source K.Sink result input.old input.new out.old out.new
        ((words : List (List ℕ)) (watchers : List Watched) → IsRowOf words (Command.Answer command rule.entry)
        → (job : LineJob) × Asked words (B.files shelf.old) watchers job) }
{
    let plan = match text_plan_of(alloc, shelf, rule) {
        Ok(plan) => plan,
        Err(why) => return refuse(why, &mut lines.pending),
    };
    answer_by_plan(alloc, command, &plan, input, out, lines)
}

/// Joins the blocks in the input to control messages of the downlink, and answers each line by these.
fn answer_segments<S: Source, K: Sink>(
    alloc: Global,
    reading: Reading,
    input: &mut S,
    out: &mut K,
    lines: &mut Lines,
) -> Result<Ended, Fault>
    requires ready { IsReady lines.old }
    requires unfailed { K.faults out.old ≡ 0 }
    ensures ends { (words : List (List ℕ)) (files : Option (List ℕ → Option (List ℕ))) (watchers : List Watched)
        → IsSegments words reading → JobEnds words files watchers (S.left input.old) (S.left input.new)
        (K.taken out.old) (K.taken out.new) lines.new.pending.items result }
    ensures read { result ≡ Err Fault.Read → SourceFails S.Source input.old input.new }
    ensures streams { LeavesStreams S.Source K.Sink result input.old input.new out.old out.new
        ((words : List (List ℕ)) (files : Option (List ℕ → Option (List ℕ))) (watchers : List Watched)
        → IsSegments words reading → (job : LineJob) × Asked words files watchers job) }
{
    let plan = match plan_of_entry(alloc, Entry::Downlink, reading) {
        Ok(plan) => plan,
        Err(reason) => return refuse(Unplanned::Text(reason), &mut lines.pending),
    };
    let segments = Segments {
        joiner: Joiner::new(),
        plan: &plan,
    };
    let mut command = WholeLines::new(alloc, segments);
    answer_lines(alloc, &mut command, input, out, lines)
}

/// Shows the blocks of a capture, each by the rule of its entry, and lets the watchers count them.
fn answer_replay<S: Source, K: Sink>(
    alloc: Global,
    reading: Reading,
    watchers: Vec<Box<dyn Watcher>>,
    input: &mut S,
    out: &mut K,
    lines: &mut Lines,
) -> Result<Ended, Fault>
    requires ready { IsReady lines.old }
    requires unfailed { K.faults out.old ≡ 0 }
    ensures ends { (words : List (List ℕ)) (files : Option (List ℕ → Option (List ℕ))) → IsReplay words reading
        → JobEnds words files (map (λ b. watched b) watchers.items) (S.left input.old) (S.left input.new)
        (K.taken out.old) (K.taken out.new) lines.new.pending.items result }
    ensures read { result ≡ Err Fault.Read → SourceFails S.Source input.old input.new }
    ensures streams { LeavesStreams S.Source K.Sink result input.old input.new out.old out.new
        ((words : List (List ℕ)) (files : Option (List ℕ → Option (List ℕ))) → IsReplay words reading
        → (job : LineJob) × Asked words files (map (λ b. watched b) watchers.items) job) }
{
    let plans = match plans_of_entries(alloc, reading) {
        Ok(plans) => plans,
        Err(reason) => return refuse(Unplanned::Text(reason), &mut lines.pending),
    };
    let Ok(text) = CaptureText::new(alloc, &plans) else {
        return Err(Fault::Memory);
    };
    answer_captures(alloc, text, watchers, input, out, lines)
}

/// Does the job of a command, up to the answers that wait.
fn perform<B: Shelf, S: Source, K: Sink>(
    alloc: Global,
    command: Command<'_>,
    shelf: &mut B,
    input: &mut S,
    out: &mut K,
    lines: &mut Lines,
    watchers: Vec<Box<dyn Watcher>>,
) -> Result<Ended, Fault>
    requires ready { IsReady lines.old }
    requires unfailed { K.faults out.old ≡ 0 }
    requires row { (words : List (List ℕ)) × IsRowOf words command }
    ensures ends { (words : List (List ℕ)) → IsRowOf words command.entry → (files : Option (List ℕ → Option (List ℕ)))
        → GoesByFiles words (B.files shelf.old) files → JobEnds words files (map (λ b. watched b) watchers.items)
        (S.left input.old) (S.left input.new) (K.taken out.old) (K.taken out.new) lines.new.pending.items result }
    ensures read { result ≡ Err Fault.Read → (words : List (List ℕ)) → IsRowOf words command.entry
        → SourceFails S.Source input.old input.new ⊎ FileFails B.Shelf words shelf.old shelf.new }
    ensures files { (words : List (List ℕ)) → IsRowOf words command.entry
        → AsksFiles B.Shelf words shelf.old shelf.new (((result ≡ Err Fault.Read) ⊎ (result ≡ Err Fault.Memory))
        × (input.new ≡ input.old) × (out.new ≡ out.old) × (lines.new.pending.items ≡ [])) }
    ensures shelf { KeepsShelf B.Shelf shelf.old shelf.new (result ≡ Err Fault.Read) }
    ensures streams { LeavesStreams S.Source K.Sink result input.old input.new out.old out.new
        ((words : List (List ℕ)) → IsRowOf words command.entry
        → ReadsLines words × ((files : Option (List ℕ → Option (List ℕ))) → GoesByFiles words (B.files shelf.old) files
        → (job : LineJob) × Asked words files (map (λ b. watched b) watchers.items) job)) }
{
    match command {
        Command::Report(what, rule) => report(alloc, what, rule, shelf, &mut lines.pending),
        Command::Answer(command, rule) => {
            answer_by_rule(alloc, command, rule, shelf, input, out, lines)
        }
        Command::Migrate => {
            let mut command = WholeLines::new(alloc, Migrate);
            answer_lines(alloc, &mut command, input, out, lines)
        }
        Command::Segments(reading) => answer_segments(alloc, reading, input, out, lines),
        Command::Replay(reading) => answer_replay(alloc, reading, watchers, input, out, lines),
        Command::Soak(entry, blocks) => soak_entry(alloc, entry, blocks, &mut lines.pending),
        Command::Compat(pair) => compare_files(alloc, pair, shelf, &mut lines.pending),
        Command::Verify(rule, certificate) => {
            verify_file(alloc, rule, certificate, shelf, &mut lines.pending)
        }
    }
}

/// Hands on what is pending and flushes the sink, also where memory is wanting, but not after a fault of the sink.
fn finish<K: Sink>(end: Result<Ended, Fault>, pending: &mut Vec<u8>, out: &mut K) -> Ended
    requires unfailed { end ≢ Err Fault.Write → K.faults out.old ≡ 0 }
    ensures end { result ≢ Ended.WriteFault → result ≢ Ended.NoMemory → result ≡ end_with end }
    ensures took { (front rest : List ℕ) × (pending.old.items ≡ front ++ rest) × Appended (K.taken out.old) (K.taken out.new) front
        × (result ≢ Ended.WriteFault → result ≢ Ended.NoMemory → rest ≡ []) }
    ensures write { result ≡ Ended.WriteFault → (end_with end ≡ Ended.WriteFault) ⊎ SinkFails K.Sink out.old out.new }
    ensures flushed { result ≢ Ended.WriteFault → result ≢ Ended.NoMemory → IsFlushed K.Sink out.new }
    ensures flushes { result ≢ Ended.WriteFault → IsAskedToFlush K.Sink out.new }
    ensures out { KeepsSink K.Sink out.old out.new (result ≡ Ended.WriteFault) }
{
    if let Err(Fault::Write) = end {
        return Ended::WriteFault;
    }
    let passed = pass_on(pending, out);
    if let Err(Fault::Write) = passed {
        return Ended::WriteFault;
    }
    if let Err(fault) = flush(out) {
        return fault.end();
    }
    if let Err(fault) = passed {
        return fault.end();
    }
    match end {
        Ok(ended) => ended,
        Err(fault) => fault.end(),
    }
}

/// The words of a row of the command table as they are read, or the end of a run that has none.
fn read_row<'a>(alloc: Global, words: &'a [String]) -> Result<Vec<&'a str>, Ended>
    ensures row { OnOk result (IsCommand (words_of words.now)) }
    ensures words { IfOk result (λ read. map (λ word. word.now) read.items ≡ words_of words.now) }
    ensures unread { IfErr result (EndsUnread (words_of words.now)) }
{
    // Words that are no row are told so also where there is no memory to read them.
    if command_of(words).is_none() {
        return Err(Ended::Usage);
    }
    let Ok(read) = read_words(alloc, words) else {
        return Err(Ended::NoMemory);
    };
    Ok(read)
}

/// The end of a run that comes to no job. Where there was no memory to read the words, the sink is flushed, and whatever
/// comes of that, the run ends so.
fn end_unread<K: Sink>(end: Ended, out: &mut K) -> Ended
    requires unfailed { K.faults out.old ≡ 0 }
    ensures end { result ≡ end }
    ensures usage { end ≡ Ended.Usage → out.new ≡ out.old }
    ensures taken_stays { K.taken out.new ≡ K.taken out.old }
    ensures flushes { end ≢ Ended.Usage → IsAskedToFlush K.Sink out.new }
    ensures out { KeepsSink K.Sink out.old out.new (end ≢ Ended.Usage) }
{
    if let Ended::Usage = end {
        return end;
    }
    let _flushed = flush(out);
    end
}

/// Does the job that the words ask for. Where that is `replay`, the watchers count its blocks.
pub fn run<B: Shelf, S: Source, K: Sink>(
    alloc: Global,
    words: &[String],
    outside: &mut Outside<B, S, K>,
    watchers: Vec<Box<dyn Watcher>>,
) -> Ended
    // A sink of which a call has failed is not asked again.
    requires unfailed { K.faults outside.old.sink ≡ 0 }
    // The words are no row of the command table, and the outside is left alone; or the job is done, and its result is
    // written; or a fault of one of the three ends it, or want of memory, and what is written begins the result.
    ensures ran { Ran B.Shelf S.Source K.Sink (words_of words.now) (map (λ b. watched b) watchers.items) outside.old outside.new result }
    ensures usage { (result ≡ Ended.Usage) ↔ (IsCommand (words_of words.now) → ⊥) }
    ensures row { result ≢ Ended.Usage → IsCommand (words_of words.now) }
    ensures alone { result ≡ Ended.Usage → outside.new ≡ outside.old }
    // What is written, and how a run ends, is the result for the files, the watchers, the whole input and the words.
    ensures result { IsFinished result → WritesResult B.Shelf S.Source K.Sink (words_of words.now)
        (map (λ b. watched b) watchers.items) outside.old outside.new result }
    ensures begins { result ≢ Ended.Usage → WritesFront B.Shelf S.Source K.Sink (words_of words.now)
        (map (λ b. watched b) watchers.items) outside.old outside.new }
    // After a fault while it reads, just the lines are answered whose line feed came. No answer is kept back: those to the
    // lines that had ended before the last bytes came, at most 4,096 of them, are written.
    ensures reading { result ≡ Ended.ReadFault → WritesToFeed B.Shelf S.Source K.Sink (words_of words.now)
        (map (λ b. watched b) watchers.items) outside.old outside.new }
    ensures prompt { result ≢ Ended.Usage → WritesPromptly B.Shelf S.Source K.Sink (words_of words.now)
        (map (λ b. watched b) watchers.items) outside.old outside.new }
    // What is left of the input. Where a run comes to no line, the source and its count are left alone, also after a fault.
    ensures input_read { (result ≡ Ended.Done) ⊎ (result ≡ Ended.SomeRefused) → ReadsLines (words_of words.now)
        → NothingLeft (S.left outside.new.source) }
    ensures before_lines { (result ≡ Ended.BadDescription) ⊎ (result ≡ Ended.NotCertified) → outside.new.source ≡ outside.old.source }
    ensures no_lines { (ReadsLines (words_of words.now) → ⊥) → outside.new.source ≡ outside.old.source }
    ensures no_job { ComesToNoLine (words_of words.now) (B.files outside.old.shelf) → outside.new.source ≡ outside.old.source }
    ensures bounded { HasTakenFew (S.left outside.old.source) (S.left outside.new.source) }
    // The files that the words name are asked for in their order, once each and where the run comes to them, for one byte
    // more than they may have, and no others. Where there was no memory to read the words, none is.
    ensures no_file { NamesNone (words_of words.now) → outside.new.shelf ≡ outside.old.shelf }
    ensures fetched { NamesSome (words_of words.now) → FetchesInOrder B.Shelf (words_of words.now)
        outside.old.shelf outside.new.shelf ⊎ ((result ≡ Ended.NoMemory) × (outside.new.shelf ≡ outside.old.shelf)) }
    // After these ends the rules that the words name give no bits, of any length, two trees; and after `ok compat` each
    // block of the old rule is one of the new rule.
    ensures one_tree { (result ≡ Ended.Done) ⊎ (result ≡ Ended.SomeRefused)
        → OverFiles (words_of words.now) (B.files outside.old.shelf) (RulesHaveOneTree (words_of words.now)) }
    ensures blocks_stay { result ≡ Ended.Done → OverFiles (words_of words.now) (B.files outside.old.shelf) (OldBlocksStay (words_of words.now)) }
    // A file that the run comes to, and that is told as not held, ends it at once.
    ensures missing { LacksOne (words_of words.now) (B.files outside.old.shelf) → (outside.new.source ≡ outside.old.source)
        × (K.taken outside.new.sink ≡ K.taken outside.old.sink) × IsStopped result }
    // With no fault the job is done, or there was no memory. A fault comes only where the outside shows it.
    ensures complete { IsCommand (words_of words.now) → (Fails B.Shelf S.Source K.Sink (words_of words.now) outside.old outside.new → ⊥)
        → IsFinished result ⊎ (result ≡ Ended.NoMemory) }
    ensures read_fault { result ≡ Ended.ReadFault → SourceFails S.Source outside.old.source outside.new.source
        ⊎ FileFails B.Shelf (words_of words.now) outside.old.shelf outside.new.shelf }
    ensures write_fault { result ≡ Ended.WriteFault → SinkFails K.Sink outside.old.sink outside.new.sink }
    // What the sink took is flushed. Where memory was wanting it is asked to flush it, but may have no memory either.
    ensures flushed { result ≢ Ended.Usage → result ≢ Ended.WriteFault → result ≢ Ended.NoMemory → IsFlushed K.Sink outside.new.sink }
    ensures flushes { result ≢ Ended.Usage → result ≢ Ended.WriteFault → IsAskedToFlush K.Sink outside.new.sink }
    // No fault is swallowed: a count rises only where the end tells of it; and an outside of which no call fails shows none.
    ensures faults { TellsFaults B.Shelf S.Source K.Sink outside.old outside.new (IsStopped result) }
{
    known();
    lines_have_one_answer();
    let read = match read_row(alloc, words) {
        Ok(read) => read,
        Err(end) => return end_unread(end, &mut outside.sink),
    };
    let Some(command) = command_of(&read) else {
        unreachable!();
    };
    let mut lines = Lines::new(alloc);
    let outcome = perform(
        alloc,
        command,
        &mut outside.shelf,
        &mut outside.source,
        &mut outside.sink,
        &mut lines,
        watchers,
    );
    finish(outcome, &mut lines.pending, &mut outside.sink)
}
