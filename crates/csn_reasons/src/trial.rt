//! What could have stood where a token is refused.

use crate::asked::Asked;
use crate::spot::piece;
use crate::telling::{Told, say};
use csn_bits::NoMemory;
use csn_grammar::{GrammarFault, read_rules};
use csn_lexer::MOST_TEXT;
use std::alloc::Global;

/// How many tokens are tried.
const MANY: usize = 20;

/// The tokens that are tried, and what is said of each.
static TRIED: [(&str, &str); MANY] = [
    ("<", "`<`"),
    (">", "`>`"),
    (":", "`:`"),
    ("::=", "`::=`"),
    (";", "`;`"),
    ("{", "`{`"),
    ("}", "`}`"),
    ("|", "`|`"),
    ("!", "`!`"),
    ("&", "`&`"),
    ("=", "`=`"),
    ("(", "`(`"),
    (")", "`)`"),
    ("*", "`*`"),
    ("**", "`**`"),
    ("//", "`//`"),
    ("+", "`+`"),
    ("x", "a word"),
    ("bit", "`bit`, `octet`, `null` or bits"),
    ("2", "a number"),
];

/// Whether a text begins some rules, or is some.
fn begins_rules(alloc: Global, text: &[u8]) -> Result<bool, NoMemory> {
    if text.len() > MOST_TEXT as usize {
        return Ok(false);
    }
    match read_rules(alloc, text) {
        Ok(_) => Ok(true),
        Err(GrammarFault::Syntax { place }) => Ok(place as usize >= text.len()),
        Err(GrammarFault::NoMemory) => Err(NoMemory),
    }
}

/// Whether a token can follow what a rule begins with.
fn can_follow(alloc: Global, front: &[u8], token: &str) -> Result<bool, NoMemory> {
    let mut text = Vec::from_slice(alloc, front)?;
    text.push(b' ')?;
    text.extend_from_slice(token.as_bytes())?;
    begins_rules(alloc, &text)
}

/// Writes what could stand at a place, in a rule that begins at `start`.
pub(crate) fn tell_followers(
    alloc: Global,
    out: &mut Vec<u8>,
    asked: Asked<'_>,
    start: u32,
    place: u32,
) -> Told {
    let front = piece(asked.text, start, place);
    let mut told = 0;
    for tried in &TRIED {
        if !can_follow(alloc, front, tried.0)? {
            continue;
        }
        let before = if told == 0 {
            "  could stand here: "
        } else {
            ", "
        };
        say(out, &[before.as_bytes(), tried.1.as_bytes()])?;
        told = 1;
    }
    if told > 0 {
        out.push(b'\n')?;
    }
    Ok(())
}
