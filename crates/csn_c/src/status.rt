//! The statuses that calls answer, as `bindings/c/csn.h` names them.

ghost use Rattle.std.specs.Prelude.{◌≡◌};
ghost use Rattle.csn_c.specs.Statuses.{IsEndedStatus, IsJudgedStatus, IsNoRuleStatus, IsShownStatus, IsToldStatus, IsVerdictStatus, IsWrittenStatus, TellsConflict, number_of_misfit};

use csn_rule::{
    BlockFault, Conflict, Ended, Judged, MisfitWhy, NoBlock, NoMemory, NoRule, Told, Verdict,
};

/// What was asked for.
pub const OK: u32 = 0;

/// The handle is empty.
pub const NO_RULE: u32 = 1;

/// There was no memory.
pub const NO_MEMORY: u32 = 2;

/// A reading or a form that there is not, or no block.
pub const BAD_ARGUMENT: u32 = 3;

/// The text has no rules.
pub const SYNTAX: u32 = 4;

/// The rules are refused.
pub const DESCRIPTION: u32 = 5;

/// The description has a conflict.
pub const CONFLICT: u32 = 6;

/// A text is longer than it may be.
pub const TOO_LONG: u32 = 7;

/// The block has no tree.
pub const REFUSED: u32 = 8;

/// No block has the tree.
pub const NO_BLOCK: u32 = 9;

/// There is no such node, or it has no label.
pub const NO_LABEL: u32 = 10;

/// The bytes are the text of no tree.
pub const NO_TEXT: u32 = 11;

/// The bytes are no JSON.
pub const NO_JSON: u32 = 12;

/// The JSON shows no tree.
pub const NO_TREE: u32 = 13;

/// There is no such node.
pub const NO_NODE: u32 = 14;

/// Why a rule is not compiled. `number` is that of the reason, or of the kind of conflict; `place` a byte of the text, from
/// 0, or the node of the conflict.
#[repr(C)]
#[derive(Clone, Copy)]
pub struct Why {
    pub number: u32,
    pub place: u32,
}

/// The status of a text that has no rule, and why it has none.
pub(crate) fn status_of_no_rule(no_rule: NoRule, why: &mut Why) -> u32
    ensures { IsNoRuleStatus no_rule result why.old why.new }
{
    match no_rule {
        NoRule::TooLong => TOO_LONG,
        NoRule::Syntax { place } => {
            *why = Why { number: 0, place };
            SYNTAX
        }
        NoRule::Description { why: reason, place } => {
            *why = Why {
                number: u32::from(reason.number()),
                place,
            };
            DESCRIPTION
        }
        NoRule::Conflict(conflict) => {
            *why = why_of_conflict(&conflict);
            CONFLICT
        }
        NoRule::NoMemory => NO_MEMORY,
    }
}

/// The number of the kind of a conflict, and its node.
fn why_of_conflict(conflict: &Conflict) -> Why
    ensures { TellsConflict conflict.now result }
{
    match conflict {
        Conflict::TwoEmpty { node, .. } => why_at(1, *node),
        Conflict::NotFirm { node, .. } => why_at(2, *node),
        Conflict::Overlap { node, .. } => why_at(3, *node),
        Conflict::EmptyClash { node, .. } => why_at(4, *node),
        Conflict::LoopClash { node, .. } => why_at(5, *node),
        Conflict::NotLast { node, .. } => why_at(6, *node),
    }
}

/// A conflict of a kind at a node.
fn why_at(number: u32, node: u16) -> Why
    ensures number { result.number ≡ number }
    ensures place { result.place ≡ node }
{
    Why {
        number,
        place: u32::from(node),
    }
}

/// The status of a block that was judged; where it is refused, the number is its place.
pub(crate) fn status_of_judged(judged: Judged, number: &mut usize) -> u32
    ensures { IsJudgedStatus judged result number.old number.new }
{
    match judged {
        Judged::Ok => OK,
        Judged::Refused { place } => {
            *number = place as usize;
            REFUSED
        }
    }
}

/// The status of bits of a block so far; where they are refused, the number is their place.
pub(crate) fn status_of_verdict(verdict: Verdict, number: &mut usize) -> u32
    ensures { IsVerdictStatus verdict result number.old number.new }
{
    match verdict {
        Verdict::Going => OK,
        Verdict::Refused { place } => {
            *number = place as usize;
            REFUSED
        }
    }
}

/// The status of a block that was shown; the number is that of its bytes, or its place where it is refused.
pub(crate) fn status_of_shown(shown: Result<usize, BlockFault>, number: &mut usize) -> u32
    ensures { IsShownStatus shown result number.old number.new }
{
    match shown {
        Ok(count) => {
            *number = count;
            OK
        }
        Err(BlockFault::Refused { place }) => {
            *number = place as usize;
            REFUSED
        }
        Err(BlockFault::NoMemory) => NO_MEMORY,
    }
}

/// The status of a block whose events were told, and how many they are; where it is refused, the number is its place.
pub(crate) fn status_of_told(
    told: Result<Told, NoMemory>,
    count: &mut usize,
    number: &mut usize,
) -> u32
    ensures { IsToldStatus told result count.old count.new number.old number.new }
{
    match told {
        Ok(told) => {
            *count = told.count;
            status_of_ended(told.ended, number)
        }
        Err(NoMemory) => NO_MEMORY,
    }
}

/// The status of a block that has ended so.
fn status_of_ended(ended: Ended, number: &mut usize) -> u32
    ensures { IsEndedStatus ended result number.old number.new }
{
    match ended {
        Ended::Whole => OK,
        Ended::Refused(refusal) => {
            *number = refusal.place as usize;
            REFUSED
        }
    }
}

/// The status of a tree of which the block was written; the number is that of its bits. Where it was not, the number is the
/// place up to which the bytes begin a text, or that of the reason for which no block has the tree.
pub(crate) fn status_of_written(written: Result<u32, NoBlock>, number: &mut usize) -> u32
    ensures { IsWrittenStatus written result number.old number.new }
{
    match written {
        Ok(bits) => {
            *number = bits as usize;
            OK
        }
        Err(NoBlock::NotText { place }) => {
            *number = place as usize;
            NO_TEXT
        }
        Err(NoBlock::NotJson) => NO_JSON,
        Err(NoBlock::NotTree) => NO_TREE,
        Err(NoBlock::Misfit(misfit)) => {
            *number = number_of(misfit.why);
            NO_BLOCK
        }
        Err(NoBlock::NoMemory) => NO_MEMORY,
    }
}

/// The number of the reason for which a tree does not fit, from 1 to 8.
fn number_of(why: MisfitWhy) -> usize
    ensures { result ≡ number_of_misfit why }
{
    match why {
        MisfitWhy::WrongKind => 1,
        MisfitWhy::WrongLabel => 2,
        MisfitWhy::WrongCount { .. } => 3,
        MisfitWhy::WrongWidth { .. } => 4,
        MisfitWhy::WrongSpare => 5,
        MisfitWhy::NoSuchAlternative => 6,
        MisfitWhy::WindowLength { .. } => 7,
        MisfitWhy::TooManyBits => 8,
    }
}
