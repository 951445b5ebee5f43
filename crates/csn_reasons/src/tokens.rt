//! The tokens of a text, and what is seen in them where they are no rules.

ghost use Rattle.std.specs.Prelude.{◌≡◌, ◌≤◌, length, option_map, slice_get, unwrap_or};
ghost use Rattle.csn_lexer.specs.declared.token.TheConstants.{MOST_TEXT};

use crate::spot::piece;
use csn_bits::NoMemory;
use csn_lexer::{Lexer, MOST_TEXT, Token, TokenKind};
use std::alloc::Global;

/// The tokens of a text, up to a byte that begins none.
pub(crate) fn tokens_of(alloc: Global, text: &[u8]) -> Result<Vec<Token>, NoMemory>
    requires { length text.now ≤ MOST_TEXT }
{
    let mut tokens = Vec::new(alloc);
    let mut lexer = Lexer::new(text);
    for _ in 0..MOST_TEXT {
        let Ok(Some(token)) = lexer.next() else {
            break;
        };
        tokens.push(token)?;
    }
    Ok(tokens)
}

/// The kind of a token, where there is one.
pub(crate) fn kind_at(tokens: &[Token], at: usize) -> Option<TokenKind>
    ensures { result ≡ option_map (λ token. token.kind) (slice_get tokens.now at) }
{
    match tokens.get(at) {
        Some(token) => Some(token.kind),
        None => None,
    }
}

/// Where a token begins, or else the end.
pub(crate) fn start_at(tokens: &[Token], at: usize, end: u32) -> u32
    ensures { result ≡ unwrap_or (option_map (λ token. token.start) (slice_get tokens.now at)) end }
{
    match tokens.get(at) {
        Some(token) => token.start,
        None => end,
    }
}

/// The first token that does not begin before a place, by number.
pub(crate) fn token_from(tokens: &[Token], place: u32) -> usize {
    for at in 0..tokens.len() {
        if tokens[at].start >= place {
            return at;
        }
    }
    tokens.len()
}

/// How many words stand one behind the other from a token on.
fn words_from(tokens: &[Token], from: usize) -> usize {
    for at in from..tokens.len() {
        if tokens[at].kind != TokenKind::Word {
            return at - from;
        }
    }
    tokens.len().saturating_sub(from)
}

/// A name or a label that stands behind a `<`: its bytes as they are written, where the `<` is, and from where to where
/// the words are.
#[derive(Clone, Copy)]
pub(crate) struct Named<'a> {
    pub bytes: &'a [u8],
    pub place: u32,
    pub start: u32,
    pub end: u32,
}

/// What stands in a `<` at a token, up to a token of this kind.
pub(crate) fn named_at<'a>(
    text: &'a [u8],
    tokens: &[Token],
    at: usize,
    up_to: TokenKind,
) -> Option<Named<'a>> {
    let less = tokens.get(at)?;
    if less.kind != TokenKind::Less {
        return None;
    }
    let first = at.saturating_add(1);
    let count = words_from(tokens, first);
    if count == 0 {
        return None;
    }
    let behind = first.saturating_add(count);
    if kind_at(tokens, behind) != Some(up_to) {
        return None;
    }
    let begin = tokens.get(first)?;
    let last = tokens.get(behind.checked_sub(1)?)?;
    Some(Named {
        bytes: piece(text, begin.start, last.end),
        place: less.start,
        start: begin.start,
        end: last.end,
    })
}
