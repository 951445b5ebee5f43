//! The signs of the notation, and which token begins at a place.

ghost use Rattle.std.specs.Prelude.{◌≡◌, ℕ, ◌+◌, ◌<◌, ◌≤◌, ◌↔◌, length, slice_get, slice_index, IfSome, IfNone, IsTrue};
ghost use Rattle.csn_lexer.specs.declared.symbol.TheConstants.{COLON, STAR, SLASH};
ghost use Rattle.csn_lexer.specs.declared.token.TheConstants.{MOST_TEXT};
ghost use Rattle.csn_lexer.specs.declared.token.TokenKind.{TokenKind};
ghost use Rattle.csn_lexer.specs.Spelling.{IsSpelled};
ghost use Rattle.csn_lexer.specs.Symbol.{BeginsNoSign, StandsAlone};
ghost use Rattle.csn_lexer.specs.Tokens.{IsTokenAt, BeginsNoToken};
ghost use Rattle.csn_lexer.specs.Word.{begins_word};

use crate::token::{Token, TokenKind};
use crate::words::{begins_word, word_end};

// The bytes with which two signs, or a sign and a word, can begin.
const COLON: u8 = b':';

const STAR: u8 = b'*';

const SLASH: u8 = b'/';

// The kind of the token that this byte is, where no longer token begins with it.
fn lone_symbol(byte: u8) -> Option<TokenKind>
    ensures some { IfSome result (λ kind. StandsAlone kind byte) }
    ensures none { IfNone result (BeginsNoSign byte) }
{
    match byte {
        b'<' => Some(TokenKind::Less),
        b'>' => Some(TokenKind::Greater),
        b';' => Some(TokenKind::Semicolon),
        b'{' => Some(TokenKind::BraceLeft),
        b'}' => Some(TokenKind::BraceRight),
        b'|' => Some(TokenKind::Bar),
        b'!' => Some(TokenKind::Bang),
        b'&' => Some(TokenKind::Ampersand),
        b'=' => Some(TokenKind::Equal),
        b'(' => Some(TokenKind::ParenLeft),
        b')' => Some(TokenKind::ParenRight),
        b'+' => Some(TokenKind::Plus),
        _ => None,
    }
}

fn is_at(text: &[u8], at: usize, byte: u8) -> bool
    ensures { IsTrue result ↔ (slice_get text.now at ≡ Some byte) }
{
    text.get(at) == Some(&byte)
}

fn token_of(kind: TokenKind, start: usize, end: usize) -> Token
    requires order { start ≤ end }
    requires limit { end ≤ MOST_TEXT }
    ensures { result ≡ record { kind = kind; start = start; end = end } }
{
    Token {
        kind,
        start: start as u32,
        end: end as u32,
    }
}

// The `:` or `::=` at `at`.
fn colon_at(text: &[u8], at: usize) -> Token
    requires limit { length text.now ≤ MOST_TEXT }
    requires inside { at < length text.now }
    requires sign { slice_index text.now at ≡ COLON }
    ensures { IsTokenAt text.now at result }
{
    if is_at(text, at + 1, COLON) && is_at(text, at + 2, b'=') {
        token_of(TokenKind::Define, at, at + 3)
    } else {
        token_of(TokenKind::Colon, at, at + 1)
    }
}

// The `*` or `**` at `at`.
fn star_at(text: &[u8], at: usize) -> Token
    requires limit { length text.now ≤ MOST_TEXT }
    requires inside { at < length text.now }
    requires sign { slice_index text.now at ≡ STAR }
    ensures { IsTokenAt text.now at result }
{
    if is_at(text, at + 1, STAR) {
        token_of(TokenKind::StarStar, at, at + 2)
    } else {
        token_of(TokenKind::Star, at, at + 1)
    }
}

// The `//` at `at`, where there is one.
fn slashes_at(text: &[u8], at: usize) -> Option<Token>
    requires limit { length text.now ≤ MOST_TEXT }
    requires inside { at < length text.now }
    requires sign { slice_index text.now at ≡ SLASH }
    ensures none { IfNone result (BeginsNoToken text.now at) }
    ensures some { IfSome result (IsTokenAt text.now at) }
{
    if is_at(text, at + 1, SLASH) {
        Some(token_of(TokenKind::SlashSlash, at, at + 2))
    } else {
        None
    }
}

// The word at `at`.
fn word_at(text: &[u8], at: usize) -> Token
    requires limit { length text.now ≤ MOST_TEXT }
    requires inside { at < length text.now }
    requires begins { IsTrue (begins_word (slice_index text.now at)) }
    ensures { IsTokenAt text.now at result }
{
    token_of(TokenKind::Word, at, word_end(text, at + 1))
}

// The single sign at `at` of this kind.
fn lone_symbol_at(text: &[u8], at: usize, kind: TokenKind) -> Token
    requires limit { length text.now ≤ MOST_TEXT }
    requires inside { at < length text.now }
    requires alone { StandsAlone kind (slice_index text.now at) }
    ensures { IsTokenAt text.now at result }
{
    token_of(kind, at, at + 1)
}

/// The longest token that stands at `at`, if one does.
pub fn token_at(text: &[u8], at: usize) -> Option<Token>
    requires limit { length text.now ≤ MOST_TEXT }
    requires inside { at < length text.now }
    ensures none { IfNone result (BeginsNoToken text.now at) }
    ensures some { IfSome result (IsTokenAt text.now at) }
{
    match text[at] {
        COLON => Some(colon_at(text, at)),
        STAR => Some(star_at(text, at)),
        SLASH => slashes_at(text, at),
        byte => match lone_symbol(byte) {
            Some(kind) => Some(lone_symbol_at(text, at, kind)),
            None if begins_word(byte) => Some(word_at(text, at)),
            None => None,
        },
    }
}
