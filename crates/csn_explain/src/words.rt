//! The words of the program, as `clap` reads them.

ghost use Rattle.std.specs.Prelude.{◌≡◌, Some, IfOk, IfSome, map};
ghost use Rattle.std.specs.String.{string_bytes};
ghost use Rattle.clap.specs.Words.{app_of, found_of, rows_of, subcommand_of, subcommand_rows_of};
ghost use Rattle.csn_companion.specs.Words.{job_word};
ghost use Rattle.csn_explain.specs.Words.{AsksFor, job_words, program, with_order_words, with_rule_words};

use clap::error::ErrorKind;
use clap::{Arg, ArgAction, ArgMatches, Command, Error};
use csn_companion::{Asked, Job, Order, reading_of};
use std::alloc::{AllocError, Global};

/// The version that is told.
const VERSION: &str = "1.0";

/// What may be asked for, in the order of the help.
static JOBS: [Job; 9] = [
    Job::Check,
    Job::Nodes,
    Job::Fields,
    Job::Show,
    Job::Picture,
    Job::Write,
    Job::Blocks(Order::NONE),
    Job::Cover,
    Job::Nearly,
];

/// What a job does, for the help.
fn about<'a>(job: Job) -> &'a str {
    match job {
        Job::Check => "Says whether a description is certified, and if not what is wrong",
        Job::Nodes =>
            "Lists the nodes of a description, with the places where they stand in its text",
        Job::Fields =>
            "Reads block lines, and lists the fields of each with their places, for other programs",
        Job::Show => "Reads block lines, and shows the fields of each as a table",
        Job::Picture => "Reads block lines, and draws them bit by bit as one page of HTML",
        Job::Write =>
            "Reads trees, and writes the block of each, or says in words where it does not fit",
        Job::Blocks(_) => "Makes blocks that are strings of a rule",
        Job::Cover =>
            "Makes few blocks that go all the ways that strings of a rule can go, and lists what they do not go",
        Job::Nearly =>
            "Makes blocks that are refused, one for each small change at each part of a rule",
    }
}

/// The words of one job.
fn job_words<'a>(alloc: Global, job: Job) -> Result<Command<'a>, AllocError>
    ensures { IfOk result (λ command. app_of command ≡ job_words job) }
{
    let command = with_rule_words(alloc, Command::new(alloc, job.word()).about(about(job)))?;
    match job {
        Job::Blocks(_) => with_order(alloc, command),
        _ => Ok(command),
    }
}

/// The words of a job with those that name a rule.
fn with_rule_words<'a>(alloc: Global, command: Command<'a>) -> Result<Command<'a>, AllocError>
    ensures { IfOk result (λ more. app_of more ≡ with_rule_words (app_of command.entry)) }
{
    let file = Arg::new(alloc, "FILE")
        .required(true)
        .help("A file with a description");
    let name = Arg::new(alloc, "NAME")
        .required(true)
        .help("The name of a rule, without angle brackets");
    let reading = Arg::new(alloc, "READING").required(true).help(
        "received: what a receiver must take; sent: what a sender may write",
    );
    command.arg(file)?.arg(name)?.arg(reading)
}

/// The words of a job with those that say which blocks are made.
fn with_order<'a>(alloc: Global, command: Command<'a>) -> Result<Command<'a>, AllocError>
    ensures { IfOk result (λ more. app_of more ≡ with_order_words (app_of command.entry)) }
{
    let count = Arg::new(alloc, "N").required(true).help("How many blocks");
    let seed = Arg::new(alloc, "SEED")
        .required(true)
        .help("A number: the same seed gives the same blocks");
    let trees = Arg::new(alloc, "trees")
        .long("trees")
        .action(ArgAction::SetTrue)
        .help("Writes the tree of each block behind it");
    command.arg(count)?.arg(seed)?.arg(trees)
}

/// The words of the program.
fn program_words<'a>(alloc: Global) -> Result<Command<'a>, AllocError>
    ensures { IfOk result (λ made. app_of made ≡ program) }
{
    let mut program = Command::new(alloc, "csn_explain")
        .version(VERSION)
        .about("Explains CSN.1 descriptions, and blocks by them")
        .subcommand_required(true)
        .arg_required_else_help(true);
    for job in JOBS {
        program = program.subcommand(job_words(alloc, job)?)?;
    }
    Ok(program)
}

/// The job of a word, with which blocks are made where it makes some.
fn job_by(word: &str, arguments: &ArgMatches<'_>) -> Option<Job>
    ensures { IfSome result (λ job. word.now ≡ job_word job) }
{
    match Job::of_word(word)? {
        Job::Blocks(_) => Some(Job::Blocks(Order::of_words(
            arguments.get_str("N")?,
            arguments.get_str("SEED")?,
            arguments.get_flag("trees"),
        )?)),
        job => Some(job),
    }
}

/// What the words of a job ask for, where they name a reading, and numbers where these are asked for.
fn asked_of<'a>(word: &str, arguments: &ArgMatches<'a>) -> Option<Asked<'a>>
    ensures { IfSome result (AsksFor (Some (word.now, rows_of (found_of arguments.now)))) }
{
    Some(Asked {
        job: job_by(word, arguments)?,
        file: arguments.get_str("FILE")?,
        name: arguments.get_str("NAME")?,
        reading: reading_of(arguments.get_str("READING")?)?,
    })
}

/// The same, where the word of a job is among what was read.
fn asked_by<'a>(matches: &ArgMatches<'a>) -> Option<Asked<'a>>
    ensures { IfSome result (AsksFor (subcommand_rows_of matches.now)) }
{
    let (word, arguments) = matches.subcommand()?;
    asked_of(word, arguments)
}

/// What the words ask for, of which the first is the name of the program. The error has the text for its user, which is
/// the help or the version where these were asked for.
pub fn read_words<'a>(alloc: Global, words: &'a [String]) -> Result<Asked<'a>, Error>
    ensures asked { IfOk result (AsksFor (subcommand_of program (map string_bytes words.entry.now))) }
{
    let mut program = program_words(alloc)?;
    let matches = program.try_get_matches_from_mut(words)?;
    match asked_by(&matches) {
        Some(asked) => Ok(asked),
        None => Err(program.error(
            ErrorKind::InvalidValue,
            "READING is `received` or `sent`, and N and SEED are numbers",
        )?),
    }
}
