//! The words of a command line, as `clap` reads them.

ghost use Rattle.std.specs.Prelude.{◌≡◌, ◌<◌, List, ℕ, length, map, IfOk, IfErr};
ghost use Rattle.std.specs.List.{AllByRecursion};
ghost use Rattle.std.specs.String.{string_bytes};
ghost use Rattle.clap.specs.Words.{app_of, kind_of};
ghost use Rattle.csn_command.specs.Command.{IsArgument};
ghost use Rattle.csn_command.specs.CommandLine.{command_line};

use clap::error::ErrorKind;
use clap::{Arg, Command, Error};
use std::alloc::{AllocError, Global};

/// A command line: the word of a command, and any number of arguments.
fn line_of<'a>(alloc: Global) -> Result<Command<'a>, AllocError>
    ensures { IfOk result (λ line. app_of line ≡ command_line) }
{
    Command::new(alloc, "csn_cli")
        .no_binary_name(true)
        .arg(Arg::new(alloc, "command").required(true))?
        .arg(Arg::new(alloc, "arguments").num_args(0..))
}

/// The words of a command line as they are read: that of the command, and its arguments behind it. They are refused for
/// want of memory alone.
pub fn read_words<'a>(alloc: Global, words: &'a [String]) -> Result<Vec<&'a str>, Error>
    requires some { 0 < length words.now }
    requires arguments { AllByRecursion IsArgument (map string_bytes words.now) }
    ensures ok { IfOk result (λ read. map (λ word. word.now) read.items ≡ map string_bytes words.now) }
    ensures err { IfErr result (λ error. kind_of error ≡ ErrorKind.OutOfMemory) }
{
    let mut read = Vec::with_capacity(alloc, words.len())?;
    let matches = line_of(alloc)?.try_get_matches_from(words)?;
    read.extend_from_slice(matches.get_strs("command").unwrap_or(&[]))?;
    read.extend_from_slice(matches.get_strs("arguments").unwrap_or(&[]))?;
    Ok(read)
}
