//! Runs the cases of case files over memory, and compares what each run writes, and how it ends, with what the file wants.
//! The words are the names of the files; where there are none, one file is read from the standard input. What no text can
//! say of a run is a test here: an outside that fails, watchers of one's own, and inputs near 16 MiB.
#![tactic(auto)]

mod case;
mod cases;
#[cfg(test)]
mod failing;
mod fault;
#[cfg(test)]
mod limits;
mod line;
#[cfg(test)]
mod runs;
mod shelf;
mod text;
#[cfg(test)]
mod watched;

use crate::case::{Came, Case};
use crate::cases::{Cases, Step};
use crate::fault::LineFault;
use crate::line::line_of;
use std::process::ExitCode;
use std::{env, fs, io};

/// In how large pieces the input is given and the output taken.
const PIECES: u32 = 4096;

/// The longest input of which a run in pieces of one byte is tried too.
const MOST_IN_BYTES: usize = 65_536;

/// Prints the lines of a text, each behind a mark.
fn show_text(rt: &HostRuntime, mark: &str, text: &[u8]) -> io::Result<()> {
    let text = String::from_utf8_lossy(rt.alloc(), text)?;
    for line in text.lines() {
        println!(rt; "{mark} {line}")?;
    }
    if !text.is_empty() && !text.ends_with('\n') {
        println!(rt; "{mark} (no line feed)")?;
    }
    Ok(())
}

/// Prints how a run in such pieces differs from what its case wants.
fn show_difference(
    rt: &HostRuntime,
    name: &str,
    case: &Case,
    pieces: u32,
    came: &Came,
) -> io::Result<bool> {
    let line = case.line;
    let wanted = case.status;
    let status = came.status;
    println!(rt;
        "{name}:{line}: status {wanted} wanted, status {status} came, in pieces of {pieces}"
    )?;
    show_text(rt, "-", &case.output)?;
    show_text(rt, "+", &came.text)?;
    Ok(false)
}

/// Runs a case once more, in pieces of one byte. Tells whether it came to the same.
fn try_again(
    rt: &HostRuntime,
    name: &str,
    cases: &Cases,
    case: &Case,
    before: &Came,
) -> io::Result<bool> {
    let came = case.run(rt.alloc(), cases.shelf(), 1)?;
    if came.is_same(before) {
        return Ok(true);
    }
    show_difference(rt, name, case, 1, &came)
}

/// Runs a case over the files. Tells whether all came as it must, and prints what did not.
fn try_case(rt: &HostRuntime, name: &str, cases: &mut Cases, case: &Case) -> io::Result<bool> {
    let came = case.run(rt.alloc(), cases.shelf(), PIECES)?;
    if !case.wants(&came) {
        return show_difference(rt, name, case, PIECES, &came);
    }
    let good = case.input.len() > MOST_IN_BYTES || try_again(rt, name, cases, case, &came)?;
    cases.keep_output(came);
    Ok(good)
}

/// Prints what is wrong with a line.
fn show_fault(rt: &HostRuntime, name: &str, number: usize, fault: LineFault) -> io::Result<bool> {
    println!(rt; "{name}:{number}: {fault}")?;
    Ok(false)
}

/// Takes a line of a file. Tells whether all came as it must, and prints what did not.
fn take_line(
    rt: &HostRuntime,
    name: &str,
    cases: &mut Cases,
    number: usize,
    line: &str,
) -> io::Result<bool> {
    let line = match line_of(rt.alloc(), line) {
        Ok(line) => line,
        Err(fault) => return show_fault(rt, name, number, fault),
    };
    match cases.take(rt.alloc(), number, line) {
        Ok(Step::Ready(case)) => try_case(rt, name, cases, &case),
        Ok(Step::Going) => Ok(true),
        Ok(Step::Open(number)) => show_fault(rt, name, number, LineFault::NoEnd),
        Err(fault) => show_fault(rt, name, number, fault),
    }
}

/// Runs the cases of a file. Tells whether all came as it must, and prints what did not.
fn try_lines(rt: &HostRuntime, name: &str, text: &str) -> io::Result<bool> {
    let mut cases = Cases::new(rt.alloc());
    let mut good = true;
    for (at, line) in text.lines().enumerate() {
        let number = at.saturating_add(1);
        good &= take_line(rt, name, &mut cases, number, line)?;
    }
    match cases.fault_at_end() {
        Some((number, fault)) => show_fault(rt, name, number, fault),
        None => Ok(good),
    }
}

/// Runs the cases of a file, and prints that all is as expected where it is.
fn try_text(rt: &HostRuntime, name: &str, text: &str) -> io::Result<bool> {
    let good = try_lines(rt, name, text)?;
    if good {
        println!(rt; "{name}: as expected")?;
    }
    Ok(good)
}

/// Runs the cases of the file of a name.
fn try_file(rt: &HostRuntime, name: &str) -> io::Result<bool> {
    match fs::read_to_string(rt, name) {
        Ok(text) => try_text(rt, name, text.as_str()),
        Err(error) => {
            println!(rt; "{name}: {error}")?;
            Ok(false)
        }
    }
}

/// Runs the cases of all files that the words name.
fn try_all(rt: &HostRuntime) -> io::Result<bool> {
    let mut good = true;
    let mut names = 0usize;
    for name in env::args(rt)?.skip(1) {
        names = names.saturating_add(1);
        good &= try_file(rt, name.as_str())?;
    }
    if names > 0 {
        return Ok(good);
    }
    let text = io::read_to_string(rt.alloc(), rt.stdin())?;
    try_text(rt, "standard input", text.as_str())
}

fn main(rt: HostRuntime) -> io::Result<ExitCode> {
    if try_all(&rt)? {
        Ok(ExitCode::SUCCESS)
    } else {
        Ok(ExitCode::FAILURE)
    }
}
