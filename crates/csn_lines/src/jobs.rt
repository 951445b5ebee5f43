//! Jobs over the lines of an input.

ghost use Rattle.std.specs.Prelude.{◌≡◌, [], IfOk, IfErr, OnOk, map};
ghost use Rattle.csn_lines.specs.Ends.{BlamesStreams, end_of};
ghost use Rattle.csn_lines.specs.Jobs.{BeginsJob, LineJob, Steps, beginning};
ghost use Rattle.csn_lines.specs.Language.{of_plans};
ghost use Rattle.csn_lines.specs.LineState.{closing};
ghost use Rattle.csn_lines.specs.Progress.{AnswersAll, Stops};
ghost use Rattle.csn_lines.specs.Reading.{IsReady};
ghost use Rattle.csn_lines.specs.Replaying.{ReadsCapture, desc_of};
ghost use Rattle.csn_lines.specs.Work.{watching};

use crate::capture_text::CaptureText;
use crate::fault::Fault;
use crate::laws::plans_do_jobs;
use crate::lines::{LineCommand, Lines};
use crate::replay::Replay;
use csn_io::{Sink, Source};
use csn_plan::Ended;
use csn_replay::Watcher;
use std::alloc::Global;

/// The end of a job that answered all lines, by whether it refused one.
fn end_by_lines(refused: bool) -> Ended
    ensures { result ≡ end_of refused }
{
    if refused {
        Ended::SomeRefused
    } else {
        Ended::Done
    }
}

/// Answers each line of the input, in each job that the command begins to do.
pub fn answer_lines<C: LineCommand, S: Source, K: Sink>(
    alloc: Global,
    command: &mut C,
    input: &mut S,
    out: &mut K,
    lines: &mut Lines,
) -> Result<Ended, Fault>
    requires begin { C.reads command.old [] }
    requires ready { IsReady lines.old }
    requires unfailed { K.faults out.old ≡ 0 }
    ensures ok { OnOk result ((job : LineJob) → BeginsJob job (C.work command.old) (C.kept command.old)
        → AnswersAll (Steps job) closing (beginning job) (S.left input.old) (S.left input.new) (K.taken out.old) (K.taken out.new)
        lines.new.pending.items lines.new.refused) }
    ensures end { IfOk result (λ ended. ended ≡ end_of lines.new.refused) }
    ensures err { IfErr result (λ fault. (job : LineJob) → BeginsJob job (C.work command.old) (C.kept command.old)
        → Stops (Steps job) (beginning job) fault (S.left input.old) (S.left input.new) (K.taken out.old) (K.taken out.new)
        lines.new.pending.items) }
    ensures blames { BlamesStreams result (S.steady input.old) (S.steady input.new) (S.faults input.old) (S.faults input.new)
        (K.steady out.old) (K.steady out.new) (K.faults out.old) (K.faults out.new) }
{
    plans_do_jobs();
    lines.answer_all(command, alloc, input, out)?;
    Ok(end_by_lines(lines.refused))
}

/// Shows the blocks of a capture, and lets the watchers count them.
pub fn answer_captures<S: Source, K: Sink>(
    alloc: Global,
    text: CaptureText<'_>,
    watchers: Vec<Box<dyn Watcher>>,
    input: &mut S,
    out: &mut K,
    lines: &mut Lines,
) -> Result<Ended, Fault>
    requires begin { ReadsCapture text.writers.items text.head [] }
    requires ready { IsReady lines.old }
    requires unfailed { K.faults out.old ≡ 0 }
    ensures ok { OnOk result ((job : LineJob) → BeginsJob job (watching (of_plans (map desc_of text.entry.writers.items)))
        (record { bodies = []; watchers = map (λ b. watched b) watchers.items })
        → AnswersAll (Steps job) closing (beginning job) (S.left input.old) (S.left input.new) (K.taken out.old) (K.taken out.new)
        lines.new.pending.items lines.new.refused) }
    ensures end { IfOk result (λ ended. ended ≡ end_of lines.new.refused) }
    ensures err { IfErr result (λ fault. (job : LineJob) → BeginsJob job (watching (of_plans (map desc_of text.entry.writers.items)))
        (record { bodies = []; watchers = map (λ b. watched b) watchers.items })
        → Stops (Steps job) (beginning job) fault (S.left input.old) (S.left input.new) (K.taken out.old) (K.taken out.new)
        lines.new.pending.items) }
    ensures blames { BlamesStreams result (S.steady input.old) (S.steady input.new) (S.faults input.old) (S.faults input.new)
        (K.steady out.old) (K.steady out.new) (K.faults out.old) (K.faults out.new) }
{
    let mut command = Replay { text, watchers };
    answer_lines(alloc, &mut command, input, out, lines)
}
