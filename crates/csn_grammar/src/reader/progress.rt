//! How much of an exponent is read.

use crate::exponent::Exponent;
use csn_desc::Label;

/// What stands round a `val`: a factor and a summand, and whether a bracket is open round it.
#[derive(Drop)]
pub struct Terms {
    pub factor: Option<u32>,
    pub summand: Option<u32>,
    pub bracket: bool,
}

/// How much of an exponent is read.
#[derive(Drop)]
pub enum Progress {
    /// `(`
    Bracket,
    /// `*`
    Star,
    /// `* (`
    StarBracket,
    /// A number in brackets.
    Number(u32),
    /// A summand and `+`.
    Summand(u32),
    /// A summand, `+` and a number, which can only be a factor.
    Factor { summand: u32, factor: u32 },
    /// All that stands before `val`.
    Before(Terms),
    /// `val`
    Val(Terms),
    /// `val (`
    ValBracket(Terms),
    /// `val (` and words.
    ValWords { terms: Terms, words: Label },
    /// `val ( name )`, in brackets.
    Product { terms: Terms, label: Label },
    /// `val ( name ) *`
    FactorBehind { summand: Option<u32>, label: Label },
    /// A product and `+`.
    SummandBehind { factor: u32, label: Label },
    /// All but the bracket at the end.
    Whole(Exponent),
}

/// What a token leads to: more of the exponent, or its end.
#[derive(Drop)]
pub enum ExponentNext {
    Goes(Progress),
    Ends(Exponent),
}
