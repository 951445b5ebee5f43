//! A line of a case file: a word and, behind one space, its text.

use crate::fault::LineFault;
use crate::text::bytes_of;
use std::alloc::{AllocError, Global};

/// What a line says.
#[derive(Drop)]
pub(crate) enum Line<'a> {
    /// Nothing: it is empty or a comment.
    Silent,
    /// The file of the name has these bytes.
    File(&'a str, Vec<u8>),
    /// The file of the name goes on with these.
    More(&'a str, Vec<u8>),
    /// The file of the name is the text of the catalogue.
    Catalogue(&'a str),
    /// The file of the name is what the last run wrote.
    Keep(&'a str),
    /// A run begins, with these words.
    Run(Vec<String>),
    /// Its input goes on with these bytes.
    Input(Vec<u8>),
    /// What it must write goes on with these.
    Output(Vec<u8>),
    /// It may write more behind these.
    Begins,
    /// It must end with this status.
    End(u8),
}

/// The words of a run, which have ` | ` between.
fn words_of(alloc: Global, text: &str) -> Result<Vec<String>, AllocError> {
    let mut words = Vec::new(alloc);
    if !text.is_empty() {
        for word in text.split(" | ") {
            words.push(String::from_str(alloc, word)?)?;
        }
    }
    Ok(words)
}

/// The bytes of a text and a line feed.
fn with_feed(alloc: Global, text: &str) -> Result<Vec<u8>, LineFault> {
    let mut bytes = bytes_of(alloc, text)?;
    bytes.push(b'\n').map_err(AllocError::from)?;
    Ok(bytes)
}

/// The bytes of a line feed and a text.
fn behind_feed(alloc: Global, text: &str) -> Result<Vec<u8>, LineFault> {
    let bytes = bytes_of(alloc, text)?;
    let mut line = Vec::from_slice(alloc, b"\n")?;
    line.extend_from_slice(&bytes)?;
    Ok(line)
}

/// The status that a text says.
fn status_of(text: &str) -> Result<u8, LineFault> {
    text.parse::<u8>().map_err(|_| LineFault::Unknown)
}

/// A text, cut at its first space.
fn cut(text: &str) -> (&str, &str) {
    text.split_once(' ').unwrap_or((text, ""))
}

/// What a line says.
pub(crate) fn line_of(alloc: Global, line: &str) -> Result<Line<'_>, LineFault> {
    if line.is_empty() || line.starts_with('#') {
        return Ok(Line::Silent);
    }
    let (word, text) = cut(line);
    let (name, rest) = cut(text);
    Ok(match word {
        "file" => Line::File(name, bytes_of(alloc, rest)?),
        "more" => Line::More(name, behind_feed(alloc, rest)?),
        "catalogue" => Line::Catalogue(text),
        "keep" => Line::Keep(text),
        "run" => Line::Run(words_of(alloc, text)?),
        "in" => Line::Input(with_feed(alloc, text)?),
        "part" => Line::Input(bytes_of(alloc, text)?),
        "out" => Line::Output(with_feed(alloc, text)?),
        "begins" => Line::Begins,
        "end" => Line::End(status_of(text)?),
        _ => return Err(LineFault::Unknown),
    })
}
