use crate::path::Path;

/// Where a tree does not fit a description, and why.
#[derive(Drop)]
pub struct Misfit {
    pub path: Path,
    pub why: MisfitWhy,
}

/// Why a tree does not fit. Widths are numbers of bits, counts numbers of trees.
#[derive(Clone, Copy, Debug, PartialEq, Eq, Hash)]
pub enum MisfitWhy {
    /// The tree is not of the kind that bits of the node have.
    WrongKind,
    /// The tree has another label.
    WrongLabel,
    /// There are more trees or fewer than wanted. Of a truncation the wanted ones end with the last tree
    /// that has bits.
    WrongCount { wanted: u32, found: u32 },
    /// The field or the spare part has another width.
    WrongWidth { wanted: u32, found: u32 },
    /// A sender writes another value into the spare part.
    WrongSpare,
    /// There is no alternative with the number.
    NoSuchAlternative,
    /// What is in the window has another number of bits.
    WindowLength { wanted: u32, found: u32 },
    /// There are more than 524,288 bits with those of this tree.
    TooManyBits,
}
