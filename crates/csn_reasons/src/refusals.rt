//! What is told of rules that are refused.

ghost use Rattle.std.specs.Prelude.{◌≤◌, length};
ghost use Rattle.csn_plan.specs.declared.compiling.TheConstants.{MOST_DESCRIPTION};

use crate::alike::{apart, is_near};
use crate::around::{Chunk, chunk_at, tell_way};
use crate::asked::Asked;
use crate::spot::piece;
use crate::telling::{Told, more, tell};
use crate::tokens::{Named, kind_at, named_at, token_from, tokens_of};
use crate::words::{helps, says};
use csn_lexer::{Token, TokenKind};
use csn_resolve::Why;
use std::alloc::Global;

/// Writes why rules are refused at a place.
pub(crate) fn tell_refusal(
    alloc: Global,
    out: &mut Vec<u8>,
    asked: Asked<'_>,
    why: Why,
    place: u32,
) -> Told
    requires { length asked.text.now ≤ MOST_DESCRIPTION }
{
    let tokens = tokens_of(alloc, asked.text)?;
    let at = token_from(&tokens, place);
    if why == Why::Undefined && !is_name(asked.text, &tokens, at) {
        return tell_unknown(out, asked, &tokens);
    }
    tell(out, asked, place, &[says(why).as_bytes()])?;
    let chunk = chunk_at(&tokens, asked.text.len() as u32, place);
    tell_way(alloc, out, asked, chunk, place)?;
    match why {
        Why::Undefined => tell_name(out, asked, &tokens, at)?,
        Why::ValUnknown => tell_label(out, asked, chunk, place)?,
        Why::DefinedTwice => tell_earlier(out, asked, &tokens, at)?,
        _ => (),
    }
    more(out, &[b"help: ", helps(why).as_bytes()])
}

/// Whether a name that is put in stands at a token, and not the head of a rule.
fn is_name(text: &[u8], tokens: &[Token], at: usize) -> bool {
    named_at(text, tokens, at, TokenKind::Greater).is_some() && !is_head(tokens, at)
}

/// Whether the head of a rule stands at a token: the first one, or one behind a `;`.
fn is_head(tokens: &[Token], at: usize) -> bool {
    match at.checked_sub(1) {
        Some(before) => kind_at(tokens, before) == Some(TokenKind::Semicolon),
        None => true,
    }
}

/// Writes that no rule has the asked name.
fn tell_unknown(out: &mut Vec<u8>, asked: Asked<'_>, tokens: &[Token]) -> Told
    requires { length asked.text.now ≤ MOST_DESCRIPTION }
{
    more(
        out,
        &[
            b"no rule has the name <",
            asked.name,
            b"> that was asked for",
        ],
    )?;
    match nearest_head(asked.text, tokens, asked.name) {
        Some(near) => tell(
            out,
            asked,
            near.place,
            &[b"perhaps <", near.bytes, b"> was meant"],
        ),
        None => Ok(()),
    }
}

/// The head of a rule with a name that is most like a wanted one.
fn nearest_head<'a>(text: &'a [u8], tokens: &[Token], wanted: &[u8]) -> Option<Named<'a>> {
    let mut best: Option<Named<'a>> = None;
    let mut least = usize::MAX;
    for at in 0..tokens.len() {
        if !is_head(tokens, at) {
            continue;
        }
        let Some(head) = named_at(text, tokens, at, TokenKind::Greater) else {
            continue;
        };
        let far = apart(head.bytes, wanted);
        if far < least && is_near(far, wanted) {
            least = far;
            best = Some(head);
        }
    }
    best
}

/// Writes the rule whose name is most like one that no rule has.
fn tell_name(out: &mut Vec<u8>, asked: Asked<'_>, tokens: &[Token], at: usize) -> Told
    requires { length asked.text.now ≤ MOST_DESCRIPTION }
{
    let Some(name) = named_at(asked.text, tokens, at, TokenKind::Greater) else {
        return Ok(());
    };
    match nearest_head(asked.text, tokens, name.bytes) {
        Some(near) => tell(
            out,
            asked,
            near.place,
            &[b"perhaps <", near.bytes, b"> is meant"],
        ),
        None => Ok(()),
    }
}

/// Writes where the earlier rule with the name of a later one is.
fn tell_earlier(out: &mut Vec<u8>, asked: Asked<'_>, tokens: &[Token], at: usize) -> Told
    requires { length asked.text.now ≤ MOST_DESCRIPTION }
{
    let Some(name) = named_at(asked.text, tokens, at, TokenKind::Greater) else {
        return Ok(());
    };
    match nearest_head(asked.text, tokens, name.bytes) {
        Some(near) if near.place < name.place => tell(
            out,
            asked,
            near.place,
            &[b"the earlier one"],
        ),
        _ => Ok(()),
    }
}

/// The label in the first `val(LABEL)` of a rule that does not stand before a place.
fn wanted_label<'a>(text: &'a [u8], chunk: Chunk<'_>, place: u32) -> Option<Named<'a>> {
    for at in token_from(chunk.tokens, place)..chunk.tokens.len() {
        if let Some(label) = label_in(text, chunk.tokens, at) {
            return Some(label);
        }
    }
    None
}

/// The label in the `val(LABEL)` at a token.
fn label_in<'a>(text: &'a [u8], tokens: &[Token], at: usize) -> Option<Named<'a>> {
    let val = tokens.get(at)?;
    if piece(text, val.start, val.end) != b"val".as_slice() {
        return None;
    }
    let first = at.checked_add(2)?;
    let begin = tokens.get(first)?;
    let mut end = begin.end;
    for next in first..tokens.len() {
        let token = tokens[next];
        if token.kind != TokenKind::Word {
            break;
        }
        end = token.end;
    }
    Some(Named {
        bytes: piece(text, begin.start, end),
        place: val.start,
        start: begin.start,
        end,
    })
}

/// Writes the label that a count names, and the labelled part of the rule whose label is most like it.
fn tell_label(out: &mut Vec<u8>, asked: Asked<'_>, chunk: Chunk<'_>, place: u32) -> Told
    requires { length asked.text.now ≤ MOST_DESCRIPTION }
{
    let Some(wanted) = wanted_label(asked.text, chunk, place) else {
        return Ok(());
    };
    tell(
        out,
        asked,
        wanted.start,
        &[b"the count names <", wanted.bytes, b">"],
    )?;
    match nearest_label(asked.text, chunk, wanted.bytes) {
        Some(near) => tell(
            out,
            asked,
            near.place,
            &[b"perhaps <", near.bytes, b"> is meant"],
        ),
        None => Ok(()),
    }
}

/// The labelled part of a rule whose label is most like a wanted one.
fn nearest_label<'a>(text: &'a [u8], chunk: Chunk<'_>, wanted: &[u8]) -> Option<Named<'a>> {
    let mut best: Option<Named<'a>> = None;
    let mut least = usize::MAX;
    for at in 0..chunk.tokens.len() {
        let Some(label) = named_at(text, chunk.tokens, at, TokenKind::Colon) else {
            continue;
        };
        let far = apart(label.bytes, wanted);
        if far < least && is_near(far, wanted) {
            least = far;
            best = Some(label);
        }
    }
    best
}
