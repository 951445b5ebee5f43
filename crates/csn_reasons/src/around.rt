//! What stands round a place of a text.

use crate::asked::Asked;
use crate::spot::piece;
use crate::telling::{Told, say};
use crate::tokens::{Named, named_at, start_at};
use csn_bits::NoMemory;
use csn_lexer::{Token, TokenKind};
use std::alloc::Global;

/// The tokens of one rule of a text, up to its `;`, or to the end of the text where that is missing.
#[derive(Clone, Copy)]
pub(crate) struct Chunk<'a> {
    pub tokens: &'a [Token],
    pub start: u32,
    pub end: u32,
}

/// The rule that a place stands in.
pub(crate) fn chunk_at<'a>(tokens: &'a [Token], end: u32, place: u32) -> Chunk<'a> {
    let mut first = 0;
    for at in 0..tokens.len() {
        let token = tokens[at];
        if token.kind == TokenKind::Semicolon {
            if place < token.end {
                return chunk_of(tokens, first, at + 1, token.end);
            }
            first = at + 1;
        }
    }
    chunk_of(tokens, first, tokens.len(), end)
}

/// The tokens from one number to another, up to a place.
pub(crate) fn chunk_of<'a>(tokens: &'a [Token], from: usize, to: usize, end: u32) -> Chunk<'a> {
    Chunk {
        tokens: match tokens.get(from..to) {
            Some(part) => part,
            None => &[],
        },
        start: start_at(tokens, from, end),
        end,
    }
}

/// The name of the rule, where one is written.
pub(crate) fn rule_name<'a>(text: &'a [u8], chunk: Chunk<'_>) -> Option<Named<'a>> {
    named_at(text, chunk.tokens, 0, TokenKind::Greater)
}

/// Writes the way to a place: the rule that it stands in, and the labels of the parts round it.
pub(crate) fn tell_way(
    alloc: Global,
    out: &mut Vec<u8>,
    asked: Asked<'_>,
    chunk: Chunk<'_>,
    place: u32,
) -> Told {
    let Some(rule) = rule_name(asked.text, chunk) else {
        return Ok(());
    };
    say(out, &[b"  in <", rule.bytes, b">"])?;
    let labels = labels_round(alloc, asked.text, chunk, place)?;
    for at in 0..labels.len() {
        let label = labels[at];
        say(out, &[b", ", piece(asked.text, label.0, label.1)])?;
    }
    out.push(b'\n')?;
    Ok(())
}

/// The labels of the parts that are open at a place, each with where it begins and ends.
fn labels_round(
    alloc: Global,
    text: &[u8],
    chunk: Chunk<'_>,
    place: u32,
) -> Result<Vec<(u32, u32)>, NoMemory> {
    let mut open = Vec::new(alloc);
    for at in 0..chunk.tokens.len() {
        let token = chunk.tokens[at];
        if token.start >= place {
            break;
        }
        match token.kind {
            TokenKind::Less => open.push(label_of(text, chunk.tokens, at))?,
            TokenKind::Greater => {
                open.pop();
            }
            _ => (),
        }
    }
    written_labels(alloc, &open)
}

/// The label behind a `<`, by where it begins and ends.
fn label_of(text: &[u8], tokens: &[Token], at: usize) -> Option<(u32, u32)> {
    let named = named_at(text, tokens, at, TokenKind::Colon)?;
    Some((named.start, named.end))
}

/// Those that are labels.
fn written_labels(alloc: Global, open: &[Option<(u32, u32)>]) -> Result<Vec<(u32, u32)>, NoMemory> {
    let mut labels = Vec::new(alloc);
    for one in open {
        if let Some(label) = one {
            labels.push(*label)?;
        }
    }
    Ok(labels)
}
