//! Patterns of one part after another.

ghost use Rattle.std.specs.Prelude.{◌≡◌, ◌+◌, ◌-◌, ◌≤◌, ◌++◌, ◌↔◌, length, take, map, flat_map, OnOk, IfOk, IsTrue};
ghost use Rattle.csn_cert.specs.declared.pattern.TheConstants.{MOST_MARKS};
ghost use Rattle.csn_cert.specs.PatternText.{ComesBefore};
ghost use Rattle.csn_cert.specs.CertificateV.{Rises};
ghost use Rattle.csn_certmake.specs.Patterns.{joined, continued, HasSame};
ghost use Rattle.csn_certmake.specs.Behind.{cut_to, continued_with, continued_by, HaveFewMarks, HasSize, AreBehindSize, AreBehind};

use crate::row::Row;
use csn_bits::NoMemory;
use csn_cert::laws::texts_are_of_one_pattern;
use csn_cert::{MOST_MARKS, Pattern};
use std::alloc::Global;

/// Where there are no more first patterns, to cut what stands behind them costs more than it spares.
const FEW: usize = 1;

/// Adds the first marks of another pattern.
fn push_marks(pattern: &mut Pattern, from: &Pattern, count: u8)
    requires there { count ≤ length from.now.marks }
    requires room { length pattern.old.marks + count ≤ MOST_MARKS }
    ensures { pattern.new ≡ record pattern.old { marks = pattern.old.marks ++ take count from.now.marks } }
{
    for at in 0..count {
        pattern.push(from.get(at));
    }
}

/// The marks of a pattern and behind them those of another, of which at most twelve are told.
fn joined(first: &Pattern, rest: &Pattern) -> Pattern
    ensures { result ≡ joined first.now rest.now }
{
    let room = MOST_MARKS as u8 - first.len();
    let mut pattern = Pattern::new(rest.whole() & (rest.len() <= room));
    push_marks(&mut pattern, first, first.len());
    push_marks(&mut pattern, rest, rest.len().min(room));
    pattern
}

/// Adds a pattern joined with each of some others.
fn push_joined(
    patterns: &mut Vec<Pattern>,
    first: &Pattern,
    rests: &[Pattern],
) -> Result<(), NoMemory>
    ensures { OnOk result (patterns.new.items ≡ patterns.old.items ++ map (joined first.now) rests.now) }
{
    for rest in rests {
        patterns.push(joined(first, rest))?;
    }
    Ok(())
}

/// Adds the patterns of a first one: itself where it is cut, and else joined with each of those that stand behind it.
fn push_continued(
    patterns: &mut Vec<Pattern>,
    first: &Pattern,
    rests: &[Pattern],
) -> Result<(), NoMemory>
    ensures { OnOk result (patterns.new.items ≡ patterns.old.items ++ continued_with rests.now first.now) }
{
    if !first.whole() {
        patterns.push(*first)?;
        return Ok(());
    }
    push_joined(patterns, first, rests)
}

/// The patterns of a first part that begins at an octet position, with what comes after each.
fn continued_at(
    alloc: Global,
    first: &[Pattern],
    octet: u8,
    rests: &Row,
) -> Result<Vec<Pattern>, NoMemory>
    requires octet { octet ≤ 7 }
    requires row { length rests.now ≡ 8 }
    ensures { IfOk result (λ patterns. patterns.items ≡ flat_map (continued rests.now octet) first.now) }
{
    let mut patterns = Vec::new(alloc);
    for pattern in first {
        let end = (octet + pattern.len()) % 8;
        push_continued(&mut patterns, pattern, rests.at(end))?;
    }
    Ok(patterns)
}

/// The first marks of a pattern, as many as there is room for; cut where there are more.
fn cut_to(pattern: &Pattern, room: u8) -> Pattern
    requires { room ≤ MOST_MARKS }
    ensures { result ≡ cut_to room pattern.now }
{
    if pattern.len() <= room {
        return *pattern;
    }
    let mut cut = Pattern::new(false);
    push_marks(&mut cut, pattern, room);
    cut
}

/// Patterns with no more marks than there is room for. Of those that come to the same and stand side by side, one is
/// kept.
pub(crate) fn cut_all(
    alloc: Global,
    patterns: &[Pattern],
    room: u8,
) -> Result<Vec<Pattern>, NoMemory>
    requires { room ≤ MOST_MARKS }
    ensures { IfOk result (λ cut. HasSame cut.items (map (cut_to room) patterns.now)) }
{
    let mut cut = Vec::new(alloc);
    for pattern in patterns {
        cut.push(cut_to(pattern, room))?;
    }
    Ok(without_repeats(cut))
}

/// Whether some of the patterns has so many marks.
fn has_size(patterns: &[Pattern], size: u8) -> bool
    ensures { IsTrue result ↔ HasSize patterns.now size }
{
    for pattern in patterns {
        if pattern.len() == size {
            return true;
        }
    }
    false
}

/// What stands behind the first patterns that have so many marks, of which only as many count as there is room for;
/// none where no first pattern has so many.
fn behind_size(
    alloc: Global,
    first: &[Pattern],
    size: u8,
    rests: &[Pattern],
) -> Result<Vec<Pattern>, NoMemory>
    requires { size ≤ MOST_MARKS }
    ensures { IfOk result (λ behind. AreBehindSize first.now size rests.now behind.items) }
{
    if !has_size(first, size) {
        return Ok(Vec::new(alloc));
    }
    cut_all(alloc, rests, MOST_MARKS as u8 - size)
}

/// What stands behind the first patterns, which begin at an octet position, for each number of marks that they may
/// have.
fn behind_each(alloc: Global, first: &[Pattern], octet: u8, rests: &Row) -> Result<Row, NoMemory>
    requires octet { octet ≤ 7 }
    requires row { length rests.now ≡ 8 }
    ensures { IfOk result (AreBehind first.now octet rests.now) }
{
    let mut behind = Row::new(alloc);
    for size in 0..MOST_MARKS as u8 + 1 {
        let end = (octet + size) % 8;
        behind.push(behind_size(alloc, first, size, rests.at(end))?)?;
    }
    Ok(behind)
}

/// The patterns of the first ones, with what stands behind each number of marks.
fn continued_by(alloc: Global, first: &[Pattern], behind: &Row) -> Result<Vec<Pattern>, NoMemory>
    requires { length behind.now ≡ MOST_MARKS + 1 }
    ensures few { IfOk result (λ _. HaveFewMarks first.now) }
    ensures patterns { IfOk result (λ patterns. patterns.items ≡ flat_map (continued_by behind.now) first.now) }
{
    let mut patterns = Vec::new(alloc);
    for pattern in first {
        let size = pattern.len();
        push_continued(&mut patterns, pattern, behind.at(size))?;
    }
    Ok(patterns)
}

/// The patterns of a first part that begins at an octet position, and of what comes after it, which has patterns of
/// its own at each octet position.
pub(crate) fn after(
    alloc: Global,
    first: &[Pattern],
    octet: u8,
    rests: &Row,
) -> Result<Vec<Pattern>, NoMemory>
    requires octet { octet ≤ 7 }
    requires row { length rests.now ≡ 8 }
    ensures same { IfOk result (λ patterns. HasSame patterns.items (flat_map (continued rests.now octet) first.now)) }
    ensures rising { IfOk result (λ patterns. Rises ComesBefore patterns.items) }
{
    if first.len() <= FEW {
        return Ok(in_order(continued_at(alloc, first, octet, rests)?));
    }
    let behind = behind_each(alloc, first, octet, rests)?;
    Ok(in_order(continued_by(alloc, first, &behind)?))
}

/// The same patterns; of equal ones that stand side by side, one is kept.
fn without_repeats(mut patterns: Vec<Pattern>) -> Vec<Pattern>
    ensures { HasSame result.items patterns.items }
{
    texts_are_of_one_pattern();
    patterns.dedup();
    patterns
}

/// The patterns in the order of their texts, each once.
pub(crate) fn in_order(mut patterns: Vec<Pattern>) -> Vec<Pattern>
    ensures same { HasSame result.items patterns.items }
    ensures rising { Rises ComesBefore result.items }
{
    texts_are_of_one_pattern();
    patterns.sort_unstable();
    patterns.dedup();
    patterns
}
