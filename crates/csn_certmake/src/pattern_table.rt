//! The patterns of all nodes of a description, each from those of its parts.

ghost use Rattle.std.specs.Prelude.{◌≡◌, ◌≤◌, [], ◌∷◌, length, map, flat_map, true, IfOk};
ghost use Rattle.csn_desc.specs.Nodes.{parts_of};
ghost use Rattle.csn_desc.specs.Formed.{IsDescription};
ghost use Rattle.csn_desc.specs.declared.desc.TheConstants.{MOST_NODES};
ghost use Rattle.csn_look.specs.ReachV.{IsReachOf};
ghost use Rattle.csn_certmake.specs.Rows.{kept_if, IsReachedPart, HaveRows};
ghost use Rattle.csn_good.specs.Patterns.{leaf_pattern};
ghost use Rattle.csn_certmake.specs.Patterns.{continued, patterns_in, IsRow, AreRows, sequence_of, times_of, turns_of, choice_of, patterns_at, node_patterns};
ghost use Rattle.csn_certmake.specs.Behind.{cut_to};
ghost use Rattle.csn_certmake.specs.Near.{IsFar};

use crate::joining::{after, cut_all, in_order};
use crate::near::near_parts;
use crate::row::Row;
use csn_bits::NoMemory;
use csn_cert::Pattern;
use csn_desc::{Count, Desc, Node, Parts, Reading};
use csn_good::leaf_pattern;
use csn_look::{OctetSet, Reach};
use std::alloc::Global;

/// The patterns of what each node may begin with, at each octet position at which it is reached. The nodes are gone
/// through once, the last one first.
pub(crate) fn patterns_of(alloc: Global, desc: &Desc, reach: &Reach) -> Result<Vec<Row>, NoMemory>
    requires { IsReachOf desc.now reach.now.reached }
    ensures rows { IfOk result (λ rows. HaveRows desc.now rows.items) }
    ensures few { length desc.now.nodes ≤ MOST_NODES }
    ensures description { IsDescription desc.now }
{
    let count = desc.len();
    let mut rows = no_rows(alloc, count)?;
    for i in (0..count).rev() {
        let row = row_of(alloc, desc.reading(), desc.node(i), rows.as_slice())?;
        rows[i as usize] = reached_part(alloc, &row, &reach.reached(i))?;
    }
    Ok(rows)
}

/// As many rows without patterns as there are nodes.
fn no_rows(alloc: Global, count: u16) -> Result<Vec<Row>, NoMemory>
    ensures { IfOk result (λ rows. length rows.items ≡ count) }
{
    let mut rows = Vec::new(alloc);
    for k in 0..count {
        rows.push(Row::new(alloc))?;
    }
    Ok(rows)
}

/// The patterns of a row at the octet positions of a set, and none elsewhere.
fn reached_part(alloc: Global, row: &Row, reached: &OctetSet) -> Result<Row, NoMemory>
    requires { length row.now ≡ 8 }
    ensures { IfOk result (IsReachedPart row.now reached.now) }
{
    let mut part = Row::new(alloc);
    for octet in 0..8 {
        part.push(kept_if(alloc, reached.has(octet), row.at(octet))?)?;
    }
    Ok(part)
}

/// The patterns where the test says so, and else none.
fn kept_if(alloc: Global, keep: bool, patterns: &[Pattern]) -> Result<Vec<Pattern>, NoMemory>
    ensures { IfOk result (λ kept. kept.items ≡ kept_if keep patterns.now) }
{
    let mut kept = Vec::new(alloc);
    if keep {
        kept.extend_from_slice(patterns)?;
    }
    Ok(kept)
}

/// The patterns of a node at each octet position, from those of its parts.
fn row_of(alloc: Global, reading: Reading, node: &Node, rows: &[Row]) -> Result<Row, NoMemory>
    requires { AreRows rows.now (parts_of node.now) }
    ensures { IfOk result (λ row. IsRow (node_patterns reading rows.now node.now) row) }
{
    match node {
        Node::Seq(parts) => sequence(alloc, rows, parts),
        Node::Choice(parts) => choice(alloc, rows, parts),
        Node::Times { count, part } => turns(alloc, *count, &rows[*part as usize]),
        Node::Named { label: _, part } => copied(alloc, &rows[*part as usize]),
        Node::Lits(_) => alone(alloc, reading, node),
        Node::Spare(_) => alone(alloc, reading, node),
        Node::Pad => alone(alloc, reading, node),
        Node::Null => alone(alloc, reading, node),
        Node::Field { unit: _, count: _ } => alone(alloc, reading, node),
        Node::Rest => alone(alloc, reading, node),
        Node::Many(_) => alone(alloc, reading, node),
        Node::Trunc(_) => alone(alloc, reading, node),
        Node::Window {
            unit: _,
            count: _,
            part: _,
        } => alone(alloc, reading, node),
    }
}

/// The patterns of a part as many times as counted.
fn turns(alloc: Global, count: Count, part: &Row) -> Result<Row, NoMemory>
    requires { length part.now ≡ 8 }
    ensures { IfOk result (λ row. IsRow (turns_of (patterns_in part.now) count) row) }
{
    match count {
        Count::Fixed(n) => times(alloc, n, part),
        Count::Counted {
            m: _,
            field: _,
            c: _,
        } => each(alloc, Pattern::new(false)),
    }
}

/// The patterns of a node that go without its parts.
fn alone(alloc: Global, reading: Reading, node: &Node) -> Result<Row, NoMemory>
    ensures { IfOk result (λ row. IsRow (λ octet. leaf_pattern reading node.now octet ∷ []) row) }
{
    let mut row = Row::new(alloc);
    for octet in 0..8 {
        row.push(vec![in alloc; leaf_pattern(reading, node, octet)]?)?;
    }
    Ok(row)
}

/// One pattern at each octet position.
fn each(alloc: Global, pattern: Pattern) -> Result<Row, NoMemory>
    ensures { IfOk result (λ row. IsRow (λ octet. pattern ∷ []) row) }
{
    let mut row = Row::new(alloc);
    for octet in 0..8u8 {
        let mut patterns = Vec::new(alloc);
        patterns.push(pattern)?;
        row.push(patterns)?;
    }
    Ok(row)
}

/// The patterns of no bits.
fn no_bits(alloc: Global) -> Result<Row, NoMemory>
    ensures { IfOk result (λ row. IsRow (λ octet. record { marks = []; whole = true } ∷ []) row) }
{
    each(alloc, Pattern::new(true))
}

/// The patterns of a part before others that have these.
fn before(alloc: Global, part: &Row, rests: &Row) -> Result<Row, NoMemory>
    requires part { length part.now ≡ 8 }
    requires rests { length rests.now ≡ 8 }
    ensures { IfOk result (λ row. IsRow (λ octet. flat_map (continued rests.now octet) (patterns_in part.now octet)) row) }
{
    let mut row = Row::new(alloc);
    for octet in 0..8 {
        row.push(after(alloc, part.at(octet), octet, rests)?)?;
    }
    Ok(row)
}

/// The patterns of parts one after another. Those of the parts behind the near ones are made first: of their marks none
/// counts.
fn sequence(alloc: Global, rows: &[Row], parts: &Parts) -> Result<Row, NoMemory>
    requires { AreRows rows.now parts.now }
    ensures { IfOk result (λ row. IsRow (sequence_of (patterns_at rows.now) parts.now) row) }
{
    let near = near_parts(rows, parts);
    let mut row = far(alloc, rows, parts, near)?;
    for at in (0..near).rev() {
        row = before(alloc, &rows[parts.get(at) as usize], &row)?;
    }
    Ok(row)
}

/// The patterns of the parts from this one on, without their marks where it is no end.
fn far(alloc: Global, rows: &[Row], parts: &Parts, from: u16) -> Result<Row, NoMemory>
    requires rows { AreRows rows.now parts.now }
    requires within { from ≤ length parts.now }
    ensures { IfOk result (λ row. IsFar (patterns_at rows.now) parts.now from row) }
{
    let mut row = no_bits(alloc)?;
    for at in (from..parts.len()).rev() {
        let next = before(alloc, &rows[parts.get(at) as usize], &row)?;
        row = without_marks(alloc, &next)?;
    }
    Ok(row)
}

/// The patterns of a row without their marks.
fn without_marks(alloc: Global, row: &Row) -> Result<Row, NoMemory>
    requires { length row.now ≡ 8 }
    ensures { IfOk result (λ cut. IsRow (λ octet. map (cut_to 0) (patterns_in row.now octet)) cut) }
{
    let mut cut = Row::new(alloc);
    for octet in 0..8 {
        cut.push(in_order(cut_all(alloc, row.at(octet), 0)?))?;
    }
    Ok(cut)
}

/// The patterns of a part so many times. Once one time more gives no others, no further time does.
fn times(alloc: Global, n: u32, part: &Row) -> Result<Row, NoMemory>
    requires { length part.now ≡ 8 }
    ensures { IfOk result (λ row. IsRow (times_of (patterns_in part.now) n) row) }
{
    let mut row = no_bits(alloc)?;
    for k in 0..n {
        let more = before(alloc, part, &row)?;
        if more.same(&row) {
            return Ok(row);
        }
        row = more;
    }
    Ok(row)
}

/// The patterns of all alternatives.
fn choice(alloc: Global, rows: &[Row], parts: &Parts) -> Result<Row, NoMemory>
    requires { AreRows rows.now parts.now }
    ensures { IfOk result (λ row. IsRow (choice_of (patterns_at rows.now) parts.now) row) }
{
    let mut row = Row::new(alloc);
    for octet in 0..8 {
        row.push(in_order(gathered(alloc, rows, parts, octet)?))?;
    }
    Ok(row)
}

/// The patterns of all alternatives at an octet position, one after another.
fn gathered(alloc: Global, rows: &[Row], parts: &Parts, octet: u8) -> Result<Vec<Pattern>, NoMemory>
    requires rows { AreRows rows.now parts.now }
    requires octet { octet ≤ 7 }
    ensures { IfOk result (λ patterns. patterns.items ≡ choice_of (patterns_at rows.now) parts.now octet) }
{
    let mut patterns = Vec::new(alloc);
    for at in 0..parts.len() {
        let part = &rows[parts.get(at) as usize];
        patterns.extend_from_slice(part.at(octet))?;
    }
    Ok(patterns)
}

/// The same patterns once more.
fn copied(alloc: Global, part: &Row) -> Result<Row, NoMemory>
    requires { IsRow (patterns_in part.now) part.now }
    ensures { IfOk result (IsRow (patterns_in part.now)) }
{
    let mut row = Row::new(alloc);
    for octet in 0..8 {
        let mut patterns = Vec::new(alloc);
        patterns.extend_from_slice(part.at(octet))?;
        row.push(patterns)?;
    }
    Ok(row)
}
