use crate::label::Label;
use crate::parts::Parts;
use crate::run::Run;
use crate::symbol::Symbol;

/// The most that a constant count is.
pub const MOST_COUNT: u32 = 65_536;

/// The most that is added to the number of a labelled field.
pub const MOST_ADDED: u32 = 65_535;

/// The most bits of a labelled field that a count stands on.
pub const MOST_VALUE_BITS: u64 = 16;

/// How many times a part stands, or how many units of bits a field has.
#[derive(Clone, Copy, Debug, PartialEq, Eq, Hash)]
pub enum Count {
    Fixed(u32),
    /// `m` times the number of a labelled field, and `c` more. `field` is the node of the label.
    Counted { m: u8, field: u16, c: u32 },
}

/// A node of a description, with the numbers of its parts.
#[derive(Drop)]
pub enum Node {
    /// A literal word.
    Lits(Run),
    /// One spare bit, whose sent value is the symbol: `Zero` or `Low`.
    Spare(Symbol),
    /// Spare padding to the end: one bit or more, each sent as `Low`.
    Pad,
    /// No bits.
    Null,
    /// A field of `unit` bits, 1 or 8, as many times as counted.
    Field { unit: u8, count: Count },
    /// Any bits, also none.
    Rest,
    /// The parts one after another.
    Seq(Parts),
    /// One of the parts.
    Choice(Parts),
    /// The part as many times as counted.
    Times { count: Count, part: u16 },
    /// The part any number of times, each time with a bit at least.
    Many(u16),
    /// The first few of the parts, also none; the last of them has a bit at least.
    Trunc(Parts),
    /// The part, with as many bits as counted: `unit` is 1 or 8.
    Window { unit: u8, count: Count, part: u16 },
    /// A labelled part.
    Named { label: Label, part: u16 },
}

/// A node without its parts.
#[derive(Drop)]
pub enum Head {
    Lits(Run),
    Spare(Symbol),
    Pad,
    Null,
    Field { unit: u8, count: Count },
    Rest,
    Seq,
    Choice,
    Times(Count),
    Many,
    Trunc,
    Window { unit: u8, count: Count },
    Named(Label),
}
