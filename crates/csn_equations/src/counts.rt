//! What counts may be, without their fields' values.

ghost use Rattle.std.specs.Prelude.{◌≡◌, ℕ, ◌^◌, ◌%◌, ◌<◌, ◌≤◌, ◌↔◌, slice_get, IsTrue};
ghost use Rattle.csn_desc.specs.Formed.{value_width, width_of};
ghost use Rattle.csn_equations.specs.Counts.{MayBeNone};

use csn_desc::{Count, Desc, Node};

/// Whether a count may be 0 because its field may make it 0.
pub fn may_be_none(count: Count) -> bool
    ensures { IsTrue result ↔ MayBeNone count }
{
    match count {
        Count::Fixed(_) => false,
        Count::Counted { m: _, field: _, c } => c == 0,
    }
}

/// The bits of a labelled field of constant width, where the node is one.
pub fn value_width(desc: &Desc, i: u16) -> Option<u64>
    ensures { result ≡ value_width desc.now.nodes i }
{
    if i >= desc.len() {
        return None;
    }
    match desc.node(i) {
        Node::Named { label: _, part } => width(desc, *part),
        _ => None,
    }
}

/// How many bits a field of constant width has, where the node is one.
fn width(desc: &Desc, i: u16) -> Option<u64>
    ensures { result ≡ width_of (slice_get desc.now.nodes i) }
{
    if i >= desc.len() {
        return None;
    }
    match desc.node(i) {
        Node::Field {
            unit,
            count: Count::Fixed(n),
        } => Some(*unit as u64 * *n as u64),
        _ => None,
    }
}

/// How many values of so many bits differ modulo 8.
pub fn residues(width: u64) -> u8
    ensures most { result ≤ 8 }
    ensures values { result ≤ 2 ^ width }
    ensures all { (value : ℕ) → value < 2 ^ width → value % 8 < result }
{
    if width < 3 { 1 << width } else { 8 }
}
