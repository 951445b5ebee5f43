//! Tokens and the one fault that a text can have as a row of them.

/// The most bytes that a text may have.
pub const MOST_TEXT: u32 = 262_144;

/// The kind of a token.
#[derive(Clone, Copy, Debug, PartialEq, Eq)]
pub enum TokenKind {
    /// `<`
    Less,
    /// `>`
    Greater,
    /// `:`
    Colon,
    /// `::=`
    Define,
    /// `;`
    Semicolon,
    /// `{`
    BraceLeft,
    /// `}`
    BraceRight,
    /// `|`
    Bar,
    /// `!`
    Bang,
    /// `&`
    Ampersand,
    /// `=`
    Equal,
    /// `(`
    ParenLeft,
    /// `)`
    ParenRight,
    /// `*`
    Star,
    /// `**`
    StarStar,
    /// `//`
    SlashSlash,
    /// `+`
    Plus,
    /// A word: a name's part, a number, or a run of bits.
    Word,
}

/// A token. Its text is that from the byte at `start` to the place behind its last byte, `end`.
/// Places are counted in bytes from 0.
#[derive(Clone, Copy, Debug, PartialEq, Eq)]
pub struct Token {
    pub kind: TokenKind,
    pub start: u32,
    pub end: u32,
}

/// The place, in bytes from 0, of a byte that begins no token.
#[derive(Clone, Copy, Debug, PartialEq, Eq)]
pub struct LexFault {
    pub place: u32,
}
