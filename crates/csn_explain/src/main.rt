//! The companion of the program: descriptions, and blocks by them, explained to people.
#![tactic(auto)]

mod words;

use clap::Error;
use clap::error::ErrorKind;
use csn_companion::{Asked, explain};
use csn_io::{DirShelf, StdSink, StdSource};
use csn_plan::Ended;
use std::process::ExitCode;
use std::{env, io};
use words::read_words;

/// The status where the runtime refuses the words, as it does where they are not UTF-8.
const REFUSED_WORDS: u8 = 9;

/// The status of a run whose words could not be read.
fn status_without_words(error: &io::Error) -> u8 {
    if error.kind() == io::ErrorKind::OutOfMemory {
        Ended::NoMemory.status()
    } else {
        REFUSED_WORDS
    }
}

/// Prints the help or the version, or what is wrong with the words, and tells the end of the run.
fn tell(rt: &HostRuntime, error: &Error) -> Ended {
    if error.kind() == ErrorKind::OutOfMemory {
        return Ended::NoMemory;
    }
    match error.print(rt) {
        Err(_) => Ended::WriteFault,
        Ok(()) if error.use_stderr() => Ended::Usage,
        Ok(()) => Ended::Done,
    }
}

/// Says on standard error why a run is not finished, where its output cannot say it.
fn complain(rt: &HostRuntime, ended: Ended) -> io::Result<()> {
    match ended {
        Ended::ReadFault => eprintln!(rt; "error: a file or the input cannot be read"),
        Ended::WriteFault => eprintln!(rt; "error: the output cannot be written"),
        Ended::NoMemory => eprintln!(rt; "error: there is no memory"),
        Ended::TooLong => eprintln!(rt; "error: the description or the input is too long"),
        _ => Ok(()),
    }
}

/// Does what is asked for, over the real objects of the outside.
fn run(rt: &HostRuntime, asked: Asked<'_>) -> Ended {
    let mut shelf = DirShelf::new(rt);
    let mut input = StdSource::new(rt.stdin());
    let mut out = StdSink::new(rt.stdout());
    explain(rt.alloc(), asked, &mut shelf, &mut input, &mut out)
}

fn main(rt: HostRuntime) -> ExitCode {
    let words = match env::args(&rt) {
        Ok(words) => words,
        Err(error) => return ExitCode::from(status_without_words(&error)),
    };
    let Ok(words) = words.collect::<Vec<String>>(rt.alloc()) else {
        return ExitCode::from(Ended::NoMemory.status());
    };
    let ended = match read_words(rt.alloc(), &words) {
        Ok(asked) => run(&rt, asked),
        Err(error) => tell(&rt, &error),
    };
    // the status tells it too
    let _untold = complain(&rt, ended);
    ExitCode::from(ended.status())
}
