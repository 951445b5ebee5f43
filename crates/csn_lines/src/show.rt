//! Lines of `show` and `json`: a block line in, its tree or its refusal out.

ghost use Rattle.std.specs.Prelude.{◌≡◌, ◌++◌, [], List, ℕ, length, IfOk, IsErr, OnOk, OnErr};
ghost use Rattle.csn_command.specs.declared.command.RuleCommand.{RuleCommand};
ghost use Rattle.csn_lines.specs.LineState.{nothing_kept};
ghost use Rattle.csn_lines.specs.Lines.{is_refusal, is_refused};
ghost use Rattle.csn_movetext.specs.Lines.{ReadsLine};
ghost use Rattle.csn_lines.specs.Language.{of_plan};
ghost use Rattle.csn_lines.specs.OutLine.{ShowsAs, ShowsBlock, fault_text, refusal_text};
ghost use Rattle.csn_lines.specs.Work.{answering};

use crate::lines::{Answered, LINE_FEED, LineCommand, LineResult};
use csn_bits::{Bits, BitsFault};
use csn_movetext::{BlockFault, LineEnd, LineText, TreeForm};
use csn_plan::{TextPlan, push_number};
use std::alloc::{AllocError, Global};

/// Writes the answer to a block of so many bits that is refused at a place.
fn answer_refusal(place: u32, bits: u32, out: &mut Vec<u8>) -> Result<(), AllocError>
    ensures ok { OnOk result ((block : List ℕ) → bits ≡ length block → out.new.items ≡ out.old.items ++ refusal_text place block) }
    ensures err { OnErr result ((tail : List ℕ) × (out.new.items ≡ out.old.items ++ tail)) }
{
    out.extend_from_slice(b"no ")?;
    push_number(out, place)?;
    if place < bits {
        out.extend_from_slice(b" bit")
    } else {
        out.extend_from_slice(b" ended")
    }
}

/// Writes the answer to a block that has no tree.
fn answer_no_tree(fault: BlockFault, bits: &Bits, out: &mut Vec<u8>) -> Result<(), AllocError>
    ensures ok { OnOk result ((place : ℕ) × (fault ≡ BlockFault.Refused place) × (out.new.items ≡ out.old.items ++ refusal_text place bits.now)) }
    ensures err { OnErr result ((tail : List ℕ) × (out.new.items ≡ out.old.items ++ tail)) }
{
    match fault {
        BlockFault::Refused { place } => answer_refusal(place, bits.len(), out),
        BlockFault::NoMemory => Err(AllocError),
    }
}

/// Writes the answer to a line that is no block line: the number of its fault, and what the fault
/// tells.
pub(crate) fn answer_fault(fault: BitsFault, out: &mut Vec<u8>) -> Result<(), AllocError>
    ensures ok { OnOk result (out.new.items ≡ out.old.items ++ fault_text fault) }
    ensures memory { fault ≡ BitsFault.NoMemory → IsErr result }
    ensures err { OnErr result ((tail : List ℕ) × (out.new.items ≡ out.old.items ++ tail)) }
{
    match fault {
        BitsFault::BadDigit { column } => {
            out.extend_from_slice(b"bad 1 ")?;
            push_number(out, column)
        }
        BitsFault::BadLength => out.extend_from_slice(b"bad 2"),
        BitsFault::BadFill => out.extend_from_slice(b"bad 3"),
        BitsFault::TooManyBits => out.extend_from_slice(b"bad 4"),
        BitsFault::NoMemory => Err(AllocError),
    }
}

/// Answers a block by its tree in a form, which is written behind `ok ` as the block is judged, and cut back where the
/// block is refused.
pub fn show_block(plan: &TextPlan, form: TreeForm, bits: &Bits, out: &mut Vec<u8>) -> LineResult
    ensures ok { IfOk result (λ answered. (answer : List ℕ) × (out.new.items ≡ out.old.items ++ answer)
        × ShowsBlock form (of_plan plan.now) bits.now answer × (is_refused answered ≡ is_refusal answer)) }
    ensures err { OnErr result ((tail : List ℕ) × (out.new.items ≡ out.old.items ++ tail)) }
{
    let start = out.len();
    out.extend_from_slice(b"ok ")?;
    match plan.write(form, bits, out) {
        Ok(()) => Ok(Answered::Given),
        Err(fault) => {
            out.truncate(start);
            answer_no_tree(fault, bits, out)?;
            Ok(Answered::Refused)
        }
    }
}

/// Ends a line: writes the tree of its block behind `ok `, or why there is none. Tells how many bits its block has.
pub(crate) fn answer_line(
    text: &mut LineText<'_>,
    out: &mut Vec<u8>,
) -> Result<(Answered, Option<u32>), AllocError>
    ensures ok { IfOk result (λ told. (line : List ℕ) → ReadsLine text.old line → (answer : List ℕ) × (out.new.items ≡ out.old.items ++ answer)
        × ShowsAs text.old.form (of_plan text.old.desc) line answer told.1 × (is_refused told.0 ≡ is_refusal answer)) }
    ensures anew { OnOk result (ReadsLine text.new []) }
    ensures form { text.new.form ≡ text.old.form }
    ensures desc { text.new.desc ≡ text.old.desc }
    ensures err { OnErr result ((line : List ℕ) → ReadsLine text.old line → (tail : List ℕ) × (out.new.items ≡ out.old.items ++ tail)) }
{
    let start = out.len();
    out.extend_from_slice(b"ok ")?;
    match text.end(out)? {
        LineEnd::Text { bits } => Ok((Answered::Given, Some(bits))),
        LineEnd::Refused { place, bits } => {
            out.truncate(start);
            answer_refusal(place, bits, out)?;
            Ok((Answered::Refused, Some(bits)))
        }
        LineEnd::Fault(why) => {
            out.truncate(start);
            answer_fault(why.into(), out)?;
            Ok((Answered::Refused, None))
        }
    }
}

/// The commands `show` and `json`: each line is answered by the tree of its block, which is written while the line comes.
#[derive(Drop)]
pub struct ShowLines<'a> {
    text: LineText<'a>,
}

impl ShowLines<'_> {
    pub fn new(alloc: Global, plan: &TextPlan, form: TreeForm) -> ShowLines<'_>
        ensures reads { ReadsLine result.text [] }
        ensures form { result.text.form ≡ form }
        ensures desc { result.text.desc ≡ plan.now }
    {
        ShowLines {
            text: plan.line_text(alloc, form),
        }
    }
}

impl LineCommand for ShowLines<'_> {
    ghost work = { λ s. answering (RuleCommand.Show s.text.form) (of_plan s.text.desc) };

    ghost kept = { λ _. nothing_kept };

    ghost reads = { λ s line. ReadsLine s.text line };

    fn take(&mut self, bytes: &[u8]) -> Result<(), AllocError> {
        self.text.take(bytes);
        Ok(())
    }

    fn answer(&mut self, _alloc: Global, out: &mut Vec<u8>) -> LineResult {
        let (answered, _) = answer_line(&mut self.text, out)?;
        out.push(LINE_FEED)?;
        Ok(answered)
    }

    fn close(&mut self, _alloc: Global, _out: &mut Vec<u8>) -> Result<(), AllocError> {
        Ok(())
    }
}
