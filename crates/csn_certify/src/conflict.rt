use csn_look::Word;

/// Why a description is not certified. `node` is a node of the description, `octet` an octet position;
/// `i` and `j` are alternatives of a choice, counted from 0, and of another node `i` is its part, 0.
#[derive(Debug, Drop, PartialEq, Eq)]
pub enum Conflict {
    /// Two alternatives of a choice have no bits.
    TwoEmpty {
        node: u16,
        i: u16,
        j: u16,
    },
    /// A part that look-ahead must see may have no bits, or begin with bits that are not looked at.
    NotFirm {
        node: u16,
        i: u16,
    },
    /// Two alternatives of a choice have keys of which one begins with the other.
    Overlap {
        node: u16,
        octet: u8,
        i: u16,
        j: u16,
        word_i: Word,
        word_j: Word,
    },
    /// A choice with an alternative of no bits: another one may begin with the bit, and so may what
    /// follows the choice.
    EmptyClash {
        node: u16,
        octet: u8,
        bit: u8,
    },
    /// The part of a repetition may begin with the bit, and so may what follows the repetition.
    LoopClash {
        node: u16,
        octet: u8,
        bit: u8,
    },
    /// Bits follow a rest, padding or a truncation, which ends with what is read.
    NotLast {
        node: u16,
        octet: u8,
    },
}
