//! The pattern of a node that goes without its parts.

ghost use Rattle.std.specs.Prelude.{◌≡◌, ◌≤◌, ◌*◌, ◌∷◌, [], true, map, replicate};
ghost use Rattle.csn_desc.specs.Spelled.{symbol_bit, spelled};
ghost use Rattle.csn_good.specs.Patterns.{mark_of, spare_mark, shortened, leaf_pattern, field_pattern};

use csn_cert::{MOST_MARKS, Mark, Pattern};
use csn_desc::{Count, Node, Reading, Run, Symbol};

/// The mark that stands for a symbol at an octet position.
fn mark_of(symbol: Symbol, octet: u8) -> Mark
    requires { octet ≤ 7 }
    ensures { result ≡ mark_of (symbol_bit symbol octet) }
{
    if symbol.bit(u32::from(octet)) == 0 {
        Mark::Zero
    } else {
        Mark::One
    }
}

/// The pattern of a literal.
fn literal(run: &Run, octet: u8) -> Pattern
    requires { octet ≤ 7 }
    ensures { result ≡ shortened (map mark_of (spelled run.now octet)) true }
{
    let size = run.len();
    let mut pattern = Pattern::new(size <= MOST_MARKS as u32);
    for at in 0..size.min(MOST_MARKS as u32) {
        pattern.push(mark_of(*run.get(at), (octet + at as u8) % 8));
    }
    pattern
}

/// The pattern of so many bits of any values.
fn any_bits(size: u64) -> Pattern
    ensures { result ≡ shortened (replicate size Mark.Any) true }
{
    let mut pattern = Pattern::new(size <= MOST_MARKS as u64);
    for at in 0..size.min(MOST_MARKS as u64) {
        pattern.push(Mark::Any);
    }
    pattern
}

/// The mark of a spare bit.
fn spare_mark(reading: Reading, symbol: Symbol, octet: u8) -> Mark
    requires { octet ≤ 7 }
    ensures { result ≡ spare_mark reading symbol octet }
{
    match reading {
        Reading::Received => Mark::Any,
        Reading::Sent => mark_of(symbol, octet),
    }
}

/// The pattern of a spare bit.
fn spare(reading: Reading, symbol: Symbol, octet: u8, whole: bool) -> Pattern
    requires { octet ≤ 7 }
    ensures { result ≡ record { marks = spare_mark reading symbol octet ∷ []; whole = whole } }
{
    let mut pattern = Pattern::new(whole);
    pattern.push(spare_mark(reading, symbol, octet));
    pattern
}

/// The pattern of a field.
fn field(unit: u8, count: &Count) -> Pattern
    ensures { result ≡ field_pattern unit count.now }
{
    match count {
        Count::Fixed(n) => any_bits(unit as u64 * *n as u64),
        Count::Counted {
            m: _,
            field: _,
            c: _,
        } => Pattern::new(false),
    }
}

/// The pattern of a node without parts, and of one whose parts are not looked into.
pub fn leaf_pattern(reading: Reading, node: &Node, octet: u8) -> Pattern
    requires { octet ≤ 7 }
    ensures { result ≡ leaf_pattern reading node.now octet }
{
    match node {
        Node::Lits(run) => literal(run, octet),
        Node::Spare(symbol) => spare(reading, *symbol, octet, true),
        Node::Pad => spare(reading, Symbol::Low, octet, false),
        Node::Null => Pattern::new(true),
        Node::Field { unit, count } => field(*unit, count),
        _ => Pattern::new(false),
    }
}
