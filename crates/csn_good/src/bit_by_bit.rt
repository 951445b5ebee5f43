//! Whether some pattern of one list meets one of another, told bit by bit: by those that may have the same bits.

ghost use Rattle.std.specs.Prelude.{◌≡◌, ◌+◌, ◌<◌, ◌≤◌, ◌↔◌, ◌⊎◌, length, false, IsTrue, IfOk, OnOk, IfSome, IfNone, Contains};
ghost use Rattle.csn_cert.specs.declared.pattern.TheConstants.{MOST_MARKS};
ghost use Rattle.csn_cert.specs.PatternV.{PatternV};
ghost use Rattle.csn_good.specs.Apart.{MarksMeet};
ghost use Rattle.csn_good.specs.ListsMeeting.{MayHave, HasShort, HaveMarks, ListsMeet};

use csn_bits::NoMemory;
use csn_cert::{Mark, Pattern};
use std::alloc::Global;

/// Whether some bit is one of both marks.
pub(crate) fn marks_meet(left: Mark, right: Mark) -> bool
    ensures { IsTrue result ↔ MarksMeet left right }
{
    left == Mark::Any || right == Mark::Any || left == right
}

/// Whether a pattern has a mark at a place that stands for this bit.
fn may_have(pattern: Pattern, at: u8, bit: Mark) -> bool
    ensures { IsTrue result ↔ MayHave at bit pattern }
{
    at < pattern.len() && marks_meet(pattern.get(at), bit)
}

/// Adds a pattern that has such a mark, and no other.
fn push_with_bit(
    some: &mut Vec<Pattern>,
    pattern: Pattern,
    at: u8,
    bit: Mark,
) -> Result<(), NoMemory>
    ensures { OnOk result ((p : PatternV) → Contains some.new.items p ↔ (Contains some.old.items p ⊎ ((p ≡ pattern) × MayHave at bit p))) }
{
    if !may_have(pattern, at, bit) {
        return Ok(());
    }
    some.push(pattern)?;
    Ok(())
}

/// The patterns that have such a mark.
fn with_bit(
    alloc: Global,
    patterns: &[Pattern],
    at: u8,
    bit: Mark,
) -> Result<Vec<Pattern>, NoMemory>
    ensures { IfOk result (λ some. (p : PatternV) → Contains some.items p ↔ (Contains patterns.now p × MayHave at bit p)) }
{
    let mut some = Vec::new(alloc);
    for pattern in patterns {
        push_with_bit(&mut some, *pattern, at, bit)?;
    }
    Ok(some)
}

/// Whether some pattern has no mark at a place.
fn has_short(patterns: &[Pattern], at: u8) -> bool
    ensures short { IsTrue result ↔ HasShort patterns.now at }
    ensures room { result ≡ false → 0 < length patterns.now → at < MOST_MARKS }
{
    for pattern in patterns {
        if pattern.len() <= at {
            return true;
        }
    }
    false
}

/// Whether the lists meet in the marks from a place on, where it is told without those at the place: not where one is
/// empty, and else where some pattern has no mark there.
fn settled(left: &[Pattern], right: &[Pattern], at: u8) -> Option<bool>
    ensures some { IfSome result (λ meet. IsTrue meet ↔ ListsMeet left.now right.now at) }
    ensures none { IfNone result (HaveMarks left.now right.now at) }
{
    if left.len() == 0 {
        return Some(false);
    }
    if right.len() == 0 {
        return Some(false);
    }
    if has_short(left, at) {
        return Some(true);
    }
    if has_short(right, at) {
        return Some(true);
    }
    None
}

/// Whether some pattern of the one list meets one of the other in the marks from a place on.
pub(crate) fn lists_meet(
    alloc: Global,
    left: &[Pattern],
    right: &[Pattern],
    at: u8,
) -> Result<bool, NoMemory>
    ensures { IfOk result (λ meet. IsTrue meet ↔ ListsMeet left.now right.now at) }
{
    match settled(left, right, at) {
        Some(meet) => return Ok(meet),
        None => {}
    }
    let zeros = with_bit(alloc, left, at, Mark::Zero)?;
    let others = with_bit(alloc, right, at, Mark::Zero)?;
    let by_zero = lists_meet(alloc, zeros.as_slice(), others.as_slice(), at + 1)?;
    if by_zero {
        return Ok(true);
    }
    let ones = with_bit(alloc, left, at, Mark::One)?;
    let more = with_bit(alloc, right, at, Mark::One)?;
    let by_one = lists_meet(alloc, ones.as_slice(), more.as_slice(), at + 1)?;
    Ok(by_one)
}
