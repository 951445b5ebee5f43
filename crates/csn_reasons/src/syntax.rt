//! What is told of a text that is no list of rules.

ghost use Rattle.std.specs.Prelude.{◌≤◌, length};
ghost use Rattle.csn_plan.specs.declared.compiling.TheConstants.{MOST_DESCRIPTION};

use crate::around::{Chunk, chunk_of, tell_way};
use crate::asked::Asked;
use crate::layout::{Missing, missing_bracket};
use crate::spot::{piece, spot_of};
use crate::telling::{Told, tell};
use crate::tokens::{kind_at, start_at, token_from, tokens_of};
use crate::trial::tell_followers;
use csn_bits::NoMemory;
use csn_grammar::{GrammarFault, read_rules};
use csn_lexer::{MOST_TEXT, Token, TokenKind};
use std::alloc::Global;

/// Writes the faults of a text that has one at `place`: the first of each rule, as rules are told apart by `;`.
pub(crate) fn tell_syntax(alloc: Global, out: &mut Vec<u8>, asked: Asked<'_>, place: u32) -> Told
    requires { length asked.text.now ≤ MOST_DESCRIPTION }
{
    let tokens = tokens_of(alloc, asked.text)?;
    let end = asked.text.len() as u32;
    if tokens.len() == 0 {
        return tell_fault(alloc, out, asked, chunk_of(&tokens, 0, 0, end), place);
    }
    let mut first = 0;
    for at in 0..tokens.len() {
        let last = at + 1 == tokens.len();
        if last || tokens[at].kind == TokenKind::Semicolon {
            let end = if last { end } else { tokens[at].end };
            tell_chunk(alloc, out, asked, chunk_of(&tokens, first, at + 1, end))?;
            first = at + 1;
        }
    }
    Ok(())
}

/// Writes the first fault of a rule, if it has one.
fn tell_chunk(alloc: Global, out: &mut Vec<u8>, asked: Asked<'_>, chunk: Chunk<'_>) -> Told
    requires { length asked.text.now ≤ MOST_DESCRIPTION }
{
    let rule = piece(asked.text, chunk.start, chunk.end);
    if rule.len() > MOST_TEXT as usize {
        return Ok(());
    }
    match read_rules(alloc, rule) {
        Ok(_) => Ok(()),
        Err(GrammarFault::Syntax { place }) => {
            tell_fault(alloc, out, asked, chunk, chunk.start.saturating_add(place))
        }
        Err(GrammarFault::NoMemory) => Err(NoMemory),
    }
}

/// Writes a fault of a rule.
fn tell_fault(
    alloc: Global,
    out: &mut Vec<u8>,
    asked: Asked<'_>,
    chunk: Chunk<'_>,
    place: u32,
) -> Told
    requires { length asked.text.now ≤ MOST_DESCRIPTION }
{
    let at = token_from(chunk.tokens, place);
    match chunk.tokens.get(at) {
        Some(token) if token.start == place => {
            let bytes = piece(asked.text, token.start, token.end);
            tell(out, asked, place, &[b"`", bytes, b"` cannot stand here"])?;
        }
        _ => tell_no_token(out, asked, place)?,
    }
    tell_way(alloc, out, asked, chunk, place)?;
    tell_followers(alloc, out, asked, chunk.start, place)?;
    tell_guess(alloc, out, asked, chunk, at)
}

/// Writes that a text ends too early, or that a byte begins no token.
fn tell_no_token(out: &mut Vec<u8>, asked: Asked<'_>, place: u32) -> Told
    requires { length asked.text.now ≤ MOST_DESCRIPTION }
{
    if place as usize >= asked.text.len() {
        tell(out, asked, place, &[b"the text ends too early"])
    } else {
        tell(out, asked, place, &[b"no token begins so"])
    }
}

/// Writes where the mistake may be, where the tokens of the rule show it.
fn tell_guess(
    alloc: Global,
    out: &mut Vec<u8>,
    asked: Asked<'_>,
    chunk: Chunk<'_>,
    at: usize,
) -> Told
    requires { length asked.text.now ≤ MOST_DESCRIPTION }
{
    if let Some(place) = rule_unended(chunk.tokens, at) {
        return tell(
            out,
            asked,
            place,
            &[b"perhaps a `;` is missing behind this, which ends a rule"],
        );
    }
    let rule = piece(asked.text, chunk.start, chunk.end);
    if rule.len() > MOST_TEXT as usize {
        return Ok(());
    }
    match missing_bracket(alloc, rule, chunk.tokens, chunk.start)? {
        Some(missing) => tell_missing(out, asked, chunk.tokens, missing),
        None => Ok(()),
    }
}

/// The token that the `;` is missing behind, where a rule goes on with the head of the next one, whose `::=` has
/// this number.
fn rule_unended(tokens: &[Token], at: usize) -> Option<u32> {
    if kind_at(tokens, at) != Some(TokenKind::Define) {
        return None;
    }
    let greater = at.checked_sub(1)?;
    for back in 1..greater {
        let here = greater - back;
        match kind_at(tokens, here) {
            Some(TokenKind::Word) => (),
            Some(TokenKind::Less) => return Some(start_at(tokens, here - 1, 0)),
            _ => return None,
        }
    }
    None
}

/// Writes which bracket is missing about where: of a `{` the first place and, where that is in another line, the last one
/// too; of a `>` the first, and of others the last.
fn tell_missing(out: &mut Vec<u8>, asked: Asked<'_>, tokens: &[Token], missing: Missing) -> Told
    requires { length asked.text.now ≤ MOST_DESCRIPTION }
{
    let first = spot_of(asked.text, start_at(tokens, missing.first, 0));
    let last = spot_of(asked.text, start_at(tokens, missing.last, 0));
    match missing.kind {
        TokenKind::Greater => tell_bracket(out, asked, tokens, missing.kind, missing.first),
        TokenKind::BraceLeft if first.line != last.line => {
            tell_bracket(out, asked, tokens, missing.kind, missing.first)?;
            tell_bracket(out, asked, tokens, missing.kind, missing.last)
        }
        _ => tell_bracket(out, asked, tokens, missing.kind, missing.last),
    }
}

/// Writes that a bracket may be missing before a token.
fn tell_bracket(
    out: &mut Vec<u8>,
    asked: Asked<'_>,
    tokens: &[Token],
    kind: TokenKind,
    at: usize,
) -> Told
    requires { length asked.text.now ≤ MOST_DESCRIPTION }
{
    let before = start_at(tokens, at.saturating_sub(1), 0);
    let here = start_at(tokens, at, before);
    match kind {
        TokenKind::BraceLeft => tell(
            out,
            asked,
            here,
            &[b"perhaps a `{` is missing here: the lines are laid out so"],
        ),
        TokenKind::BraceRight => tell(
            out,
            asked,
            before,
            &[b"perhaps a `}` is missing behind this: the lines are laid out so"],
        ),
        TokenKind::Less => tell(out, asked, here, &[b"perhaps a `<` is missing here"]),
        _ => tell(
            out,
            asked,
            before,
            &[b"perhaps a `>` is missing behind this"],
        ),
    }
}
