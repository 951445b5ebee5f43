//! The program: the real objects of the outside, handed to the top call.
#![tactic(auto)]

use csn_catalogue::entries;
use csn_io::{DirShelf, StdSink, StdSource};
use csn_replay::{BitsWatcher, EntryWatcher, RefusedWatcher, Watcher};
use csn_run::{Ended, Outside, run};
use std::alloc::AllocError;
use std::env;
use std::io::{self, ErrorKind};
use std::process::ExitCode;

/// The status where the runtime refuses the words, as it does where they are not UTF-8.
const REFUSED_WORDS: u8 = 9;

/// The status of a run whose words could not be read.
fn status_without_words(error: &io::Error) -> u8 {
    if error.kind() == ErrorKind::OutOfMemory {
        Ended::NoMemory.status()
    } else {
        REFUSED_WORDS
    }
}

/// Does the job that the words ask for. The watchers of `replay` are one for each entry in order, one for refused blocks
/// and one for bits. They count as far as a number of 64 bits goes.
fn run_words(rt: &HostRuntime, words: &[String]) -> Result<Ended, AllocError> {
    let alloc = rt.alloc();
    let mut watchers: Vec<Box<dyn Watcher>> = Vec::new(alloc);
    for entry in entries() {
        watchers.push(Box::new(alloc, EntryWatcher::new(entry, u64::MAX))?)?;
    }
    watchers.push(Box::new(alloc, RefusedWatcher::new(u64::MAX))?)?;
    watchers.push(Box::new(alloc, BitsWatcher::new(u64::MAX))?)?;
    let mut outside = Outside {
        shelf: DirShelf::new(rt),
        source: StdSource::new(rt.stdin()),
        sink: StdSink::new(rt.stdout()),
    };
    Ok(run(alloc, words, &mut outside, watchers))
}

fn main(rt: HostRuntime) -> ExitCode {
    let mut words = match env::args(&rt) {
        Ok(words) => words,
        Err(error) => return ExitCode::from(status_without_words(&error)),
    };
    let _program = words.next();
    let Ok(words) = words.collect::<Vec<String>>(rt.alloc()) else {
        return ExitCode::from(Ended::NoMemory.status());
    };
    let ended = match run_words(&rt, &words) {
        Ok(ended) => ended,
        Err(AllocError) => Ended::NoMemory,
    };
    ExitCode::from(ended.status())
}
