//! Runs of the whole program over memory.

ghost use Rattle.std.specs.Prelude.{◌≤◌};

use csn_io::{MemShelf, MemSink, MemSource};
use csn_replay::Watcher;
use csn_run::{Ended, Outside, run};
use std::alloc::{AllocError, Global};
use std::collections::BTreeMap;
use std::process::Abort;

/// The description of most runs.
pub(crate) const FIELDS: &[u8] = b"<M> ::= <A : bit (3)> 0 <B : bit (4)> ;";

/// How a run ended, and what it wrote.
#[derive(Debug, Drop)]
pub(crate) struct Ran {
    pub ended: Ended,
    pub text: Vec<u8>,
}

/// The files of a shelf, by their names.
pub(crate) type Files = BTreeMap<String, Vec<u8>>;

/// The calls of the outside that fail, by their numbers.
#[derive(Drop)]
pub(crate) struct Failing {
    pub fetches: Vec<u32>,
    pub takes: Vec<u32>,
    pub puts: Vec<u32>,
}

impl Failing {
    pub(crate) fn none(alloc: Global) -> Failing {
        Failing {
            fetches: Vec::new(alloc),
            takes: Vec::new(alloc),
            puts: Vec::new(alloc),
        }
    }
}

pub(crate) fn words_of(alloc: Global, words: &[&str]) -> Result<Vec<String>, AllocError> {
    let mut owned = Vec::new(alloc);
    for word in words {
        owned.push(String::from_str(alloc, word)?)?;
    }
    Ok(owned)
}

/// The one file F.
pub(crate) fn file(alloc: Global, text: &[u8]) -> Result<Files, AllocError> {
    let mut files = BTreeMap::new(alloc);
    let name = String::from_str(alloc, "F")?;
    files.insert(name, Vec::from_slice(alloc, text)?)?;
    Ok(files)
}

/// A run over an outside that gives and takes so many bytes in a call, and of which some calls fail.
pub(crate) fn ran_over(
    alloc: Global,
    words: &[&str],
    files: Files,
    input: Vec<u8>,
    given: u32,
    taken: u32,
    failing: Failing,
    watchers: Vec<Box<dyn Watcher>>,
) -> Result<Ran, AllocError>
    requires given { 1 ≤ given }
    requires taken { 1 ≤ taken }
{
    let words = words_of(alloc, words)?;
    let Failing {
        fetches,
        takes,
        puts,
    } = failing;
    let mut outside = Outside {
        shelf: MemShelf::new(files, fetches),
        source: MemSource::new(input, given, takes),
        sink: MemSink::new(alloc, taken, puts),
    };
    let ended = run(alloc, &words, &mut outside, watchers);
    let text = Vec::from_slice(alloc, outside.sink.taken())?;
    Ok(Ran { ended, text })
}

/// A run over the file of fields and an outside that moves so many bytes in a call, and of which some calls fail.
pub(crate) fn ran_in_pieces(
    alloc: Global,
    words: &[&str],
    input: &[u8],
    most: u32,
    failing: Failing,
    watchers: Vec<Box<dyn Watcher>>,
) -> Result<Ran, AllocError>
    requires { 1 ≤ most }
{
    let files = file(alloc, FIELDS)?;
    let input = Vec::from_slice(alloc, input)?;
    ran_over(alloc, words, files, input, most, most, failing, watchers)
}

/// A run with these watchers, of which no call of the outside fails.
pub(crate) fn ran_watched(
    alloc: Global,
    words: &[&str],
    files: Files,
    input: Vec<u8>,
    watchers: Vec<Box<dyn Watcher>>,
) -> Result<Ran, AllocError> {
    ran_over(
        alloc,
        words,
        files,
        input,
        4096,
        4096,
        Failing::none(alloc),
        watchers,
    )
}

/// A run with no watchers, of which no call of the outside fails.
pub(crate) fn ran_unwatched(
    alloc: Global,
    words: &[&str],
    files: Files,
    input: Vec<u8>,
) -> Result<Ran, AllocError> {
    ran_watched(alloc, words, files, input, Vec::new(alloc))
}

/// The run wrote this text, and ended with this status.
pub(crate) fn expect(rt: &impl Abort, ran: &Ran, text: &[u8], status: u8, what: &str) {
    assert_eq!(rt;
        (what, ran.ended.status(), ran.text.as_slice()),
        (what, status, text)
    );
}
