//! One line of `segments`: a block line in, what the joiner gives for its block out.

ghost use Rattle.std.specs.Prelude.{◌≡◌, ◌≤◌, ◌++◌, [], List, ℕ, length, IfOk, OnErr};
ghost use Rattle.csn_lines.specs.declared.lines.TheConstants.{MOST_INPUT};
ghost use Rattle.csn_lines.specs.Lines.{is_refusal, is_refused};
ghost use Rattle.csn_lines.specs.Language.{of_plan};
ghost use Rattle.csn_lines.specs.OutLine.{AnswersJoined, segment_fault};
ghost use Rattle.csn_lines.specs.Work.{JoinsLine, joining};

use crate::lines::{Answered, LineResult};
use crate::show::{answer_fault, show_block};
use crate::whole_lines::WholeLineCommand;
use csn_bits::Bits;
use csn_movetext::TreeForm;
use csn_plan::{TextPlan, push_number};
use csn_segment::{Joined, Joiner, SegmentWhy};
use std::alloc::{AllocError, Global};

/// The command `segments`, by the plan of downlink blocks.
#[derive(Drop)]
pub struct Segments<'a> {
    pub joiner: Joiner,
    pub plan: &'a TextPlan,
}

/// How many bits an octet has.
const OCTET: u32 = 8;

/// The number of the fault that tells why a block gives no message.
fn fault_number(why: SegmentWhy) -> u32
    ensures { result ≡ segment_fault why }
{
    match why {
        SegmentWhy::BadLength => 5,
        SegmentWhy::NotControl => 6,
        SegmentWhy::Reserved => 7,
        SegmentWhy::NotFinal => 8,
        SegmentWhy::NoFirst => 9,
    }
}

/// Answers a block by what the joiner gives for it.
fn answer_joined(alloc: Global, plan: &TextPlan, joined: &Joined, out: &mut Vec<u8>) -> LineResult
    ensures ok { IfOk result (λ answered. (answer : List ℕ) × (out.new.items ≡ out.old.items ++ answer)
        × AnswersJoined (of_plan plan.now) joined.now answer × (is_refused answered ≡ is_refusal answer)) }
    ensures err { OnErr result ((tail : List ℕ) × (out.new.items ≡ out.old.items ++ tail)) }
{
    match joined {
        Joined::Whole(message) => {
            let octets = message.as_slice();
            let Ok(bits) = Bits::from_octets(alloc, octets, OCTET * octets.len() as u32) else {
                return Err(AllocError);
            };
            show_block(plan, TreeForm::Text, &bits, out)
        }
        Joined::Waiting { rti } => {
            out.extend_from_slice(b"wait ")?;
            push_number(out, u32::from(*rti))?;
            Ok(Answered::Given)
        }
        Joined::Refused(why) => {
            out.extend_from_slice(b"bad ")?;
            push_number(out, fault_number(*why))?;
            Ok(Answered::Refused)
        }
    }
}

/// Answers a line by what the joiner gives for its block.
fn segments_line(
    alloc: Global,
    joiner: &mut Joiner,
    plan: &TextPlan,
    line: &[u8],
    out: &mut Vec<u8>,
) -> LineResult
    requires fits { length line.now ≤ MOST_INPUT }
    ensures ok { IfOk result (λ answered. (answer : List ℕ) × (out.new.items ≡ out.old.items ++ answer)
        × JoinsLine (of_plan plan.now) joiner.old line.now answer joiner.new × (is_refused answered ≡ is_refusal answer)) }
    ensures err { OnErr result ((tail : List ℕ) × (out.new.items ≡ out.old.items ++ tail)) }
{
    let bits = match Bits::from_hex_line(alloc, line) {
        Ok(bits) => bits,
        Err(fault) => {
            answer_fault(fault, out)?;
            return Ok(Answered::Refused);
        }
    };
    if bits.len() % OCTET != 0 {
        out.extend_from_slice(b"bad 5")?;
        return Ok(Answered::Refused);
    }
    let joined = joiner.take(bits.octets());
    answer_joined(alloc, plan, &joined, out)
}

impl WholeLineCommand for Segments<'_> {
    ghost work = { λ s. joining (of_plan s.plan.now) };

    ghost kept = { λ s. record { bodies = s.joiner; watchers = [] } };

    fn answer(&mut self, alloc: Global, line: &[u8], out: &mut Vec<u8>) -> LineResult {
        segments_line(alloc, &mut self.joiner, self.plan, line, out)
    }

    fn close(&mut self, _alloc: Global, _out: &mut Vec<u8>) -> Result<(), AllocError> {
        Ok(())
    }
}
