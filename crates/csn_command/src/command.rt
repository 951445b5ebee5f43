ghost use Rattle.std.specs.Prelude.{◌≡◌, ◌<◌, ◌≤◌, ◌↔◌, IsTrue, IsSome, IfSome, List, ℕ, codes, map};
ghost use Rattle.std.specs.Fmt.{decimal};
ghost use Rattle.csn_catalogue.specs.declared.entry.Entry.{Entry};
ghost use Rattle.csn_desc.specs.declared.reading.Reading.{Reading};
ghost use Rattle.csn_soak.specs.declared.soaking.TheConstants.{MOST_BLOCKS};
ghost use Rattle.csn_command.specs.declared.command.RuleCommand.{RuleCommand};
ghost use Rattle.csn_command.specs.declared.command.RuleReport.{RuleReport};
ghost use Rattle.csn_command.specs.Command.{AreRuleWords, IsArgument, IsCommand, IsCompat, IsVerify, IsMigrate};
ghost use Rattle.csn_command.specs.Command.{IsOverRule, IsRowOf, IsSoak, NamesReading, NamesRule, command_word};
ghost use Rattle.csn_command.specs.Command.{report_word, word_of};

use csn_catalogue::{Entry, entry_of};
use csn_desc::Reading;
use csn_json::TreeForm;
use csn_soak::MOST_BLOCKS;
use itoa::Buffer;
use std::convert::AsStr;

/// The words that name a rule of a description and a reading, behind a command.
#[derive(Clone, Copy)]
pub struct RuleWords<'a> {
    /// The file of the description.
    pub file: &'a str,
    /// The name of the rule.
    pub name: &'a str,
    pub reading: Reading,
}

/// The words that name a rule of two descriptions and a reading, behind `compat`.
#[derive(Clone, Copy)]
pub struct PairWords<'a> {
    /// The file of the old description.
    pub before: &'a str,
    /// The file of the new description.
    pub after: &'a str,
    /// The name of the rule in both.
    pub name: &'a str,
    pub reading: Reading,
}

/// What a command tells of a rule without the input.
#[derive(Clone, Copy)]
pub enum RuleReport {
    /// Whether it has a certified description.
    Check,
    /// The certificate of its description.
    Certificate,
}

/// A command that answers each line of the input by a rule.
#[derive(Clone, Copy)]
pub enum RuleCommand {
    /// Shows blocks as the trees that they have.
    Show(TreeForm),
    /// Writes trees as the blocks that have them.
    Write(TreeForm),
}

/// A row of the command table, with what its words name.
#[derive(Clone, Copy)]
pub enum Command<'a> {
    /// Tells whether the rule has a certified description, or writes its certificate. The input is not read.
    Report(RuleReport, RuleWords<'a>),
    /// Answers the lines of the input by the rule.
    Answer(RuleCommand, RuleWords<'a>),
    /// Writes the old texts of trees in the input as they are written today.
    Migrate,
    /// Joins the blocks in the input to control messages of the downlink, and shows these.
    Segments(Reading),
    /// Shows the blocks of a capture, each by the rule of its entry, and lets watchers count them.
    Replay(Reading),
    /// Judges so many blocks of an entry of the catalogue from the generator. The input is not read.
    Soak(Entry, u32),
    /// Tells whether the new description takes the blocks of the old one. The input is not read.
    Compat(PairWords<'a>),
    /// Tells whether the certificate in a file is good for the rule, which need not be certified. The input is not read.
    Verify(RuleWords<'a>, &'a str),
}

fn is_argument(word: &str) -> bool
    ensures { IsTrue result ↔ IsArgument word.now }
{
    match word.as_bytes() {
        [] => false,
        [first, ..] => *first != b'-',
    }
}

/// The reading that a word names.
fn reading_of(word: &str) -> Option<Reading>
    ensures named { IfSome result (λ reading. word.now ≡ word_of reading) }
    ensures none { (reading : Reading) → word.now ≡ word_of reading → IsSome result }
{
    if word == "received" {
        Some(Reading::Received)
    } else if word == "sent" {
        Some(Reading::Sent)
    } else {
        None
    }
}

/// The rule that the words `COMMAND FILE NAME READING` name, where these are such words.
fn rule_words<'a, W: AsStr>(command: &str, words: &'a [W]) -> Option<RuleWords<'a>>
    ensures names { IfSome result (λ rule. AreRuleWords command.now (map W.text words.now) rule) }
    ensures none { (file name : List ℕ) (reading : Reading) → NamesRule command.now (map W.text words.now) file name reading → IsSome result }
{
    let [first, file, name, reading] = words else {
        return None;
    };
    let reading = reading_of(reading.as_str())?;
    let file = file.as_str();
    let name = name.as_str();
    if first.as_str() == command && is_argument(file) && is_argument(name) {
        Some(RuleWords {
            file,
            name,
            reading,
        })
    } else {
        None
    }
}

/// The reading that the words `COMMAND READING` name, where these are such words.
fn reading_words<W: AsStr>(command: &str, words: &[W]) -> Option<Reading>
    ensures names { IfSome result (λ reading. NamesReading command.now (map W.text words.now) reading) }
    ensures none { (reading : Reading) → NamesReading command.now (map W.text words.now) reading → IsSome result }
{
    let [first, reading] = words else {
        return None;
    };
    let reading = reading_of(reading.as_str())?;
    if first.as_str() == command {
        Some(reading)
    } else {
        None
    }
}

/// The number of blocks that a word tells.
fn blocks_of(word: &str) -> Option<u32>
    ensures told { IfSome result (λ n. (word.now ≡ decimal n) × (0 < n) × (n ≤ MOST_BLOCKS)) }
    ensures none { (n : ℕ) → word.now ≡ decimal n → 0 < n → n ≤ MOST_BLOCKS → IsSome result }
{
    let Ok(blocks) = word.parse::<u32>() else {
        return None;
    };
    let mut buffer = Buffer::new();
    if 0 < blocks && blocks <= MOST_BLOCKS && buffer.format(blocks) == word {
        Some(blocks)
    } else {
        None
    }
}

/// The entry and the number of blocks that the words `soak ENTRY N` name, where these are such words.
fn soak_words<W: AsStr>(words: &[W]) -> Option<(Entry, u32)>
    ensures names { IfSome result (λ asked. IsSoak (map W.text words.now) asked.0 asked.1) }
    ensures none { (entry : Entry) (n : ℕ) → IsSoak (map W.text words.now) entry n → IsSome result }
{
    let [first, entry, blocks] = words else {
        return None;
    };
    let entry = entry_of(entry.as_str().as_bytes())?;
    let blocks = blocks_of(blocks.as_str())?;
    if first.as_str() == "soak" {
        Some((entry, blocks))
    } else {
        None
    }
}

/// The descriptions that the words `compat OLD NEW NAME READING` name, where these are such words.
fn pair_words<'a, W: AsStr>(words: &'a [W]) -> Option<PairWords<'a>>
    ensures names { IfSome result (λ pair. IsCompat (map W.text words.now) pair.before.now pair.after.now pair.name.now pair.reading) }
    ensures none { (before after name : List ℕ) (reading : Reading) → IsCompat (map W.text words.now) before after name reading → IsSome result }
{
    // Behind `compat` the words are those of a rule, with the old file in place of a command.
    let (first, behind) = words.split_first()?;
    let (before, _) = behind.split_first()?;
    let before = before.as_str();
    let rule = rule_words(before, behind)?;
    if first.as_str() == "compat" && is_argument(before) {
        Some(PairWords {
            before,
            after: rule.file,
            name: rule.name,
            reading: rule.reading,
        })
    } else {
        None
    }
}

/// The rule and the file of a certificate that the words `verify FILE NAME READING CERT` name, where these are such words.
fn verify_words<'a, W: AsStr>(words: &'a [W]) -> Option<(RuleWords<'a>, &'a str)>
    ensures names { IfSome result (λ asked. IsVerify (map W.text words.now) asked.0.file.now asked.0.name.now asked.0.reading asked.1.now) }
    ensures none { (file name : List ℕ) (reading : Reading) (certificate : List ℕ) → IsVerify (map W.text words.now)
        file name reading certificate → IsSome result }
{
    let (certificate, front) = words.split_last()?;
    let rule = rule_words("verify", front)?;
    let certificate = certificate.as_str();
    if is_argument(certificate) {
        Some((rule, certificate))
    } else {
        None
    }
}

fn is_migrate<W: AsStr>(words: &[W]) -> bool
    ensures { IsTrue result ↔ IsMigrate (map W.text words.now) }
{
    match words {
        [command] => command.as_str() == "migrate",
        _ => false,
    }
}

/// The report that a word asks for.
fn report_of(word: &str) -> Option<RuleReport>
    ensures named { IfSome result (λ report. word.now ≡ report_word report) }
    ensures none { (report : RuleReport) → word.now ≡ report_word report → IsSome result }
{
    match word.as_bytes() {
        b"check" => Some(RuleReport::Check),
        b"certificate" => Some(RuleReport::Certificate),
        _ => None,
    }
}

/// The command that a word asks for, by which a rule answers lines.
fn answer_of(word: &str) -> Option<RuleCommand>
    ensures named { IfSome result (λ command. word.now ≡ command_word command) }
    ensures none { (command : RuleCommand) → word.now ≡ command_word command → IsSome result }
{
    if word == "show" {
        Some(RuleCommand::Show(TreeForm::Text))
    } else if word == "json" {
        Some(RuleCommand::Show(TreeForm::Json))
    } else if word == "write" {
        Some(RuleCommand::Write(TreeForm::Text))
    } else if word == "unjson" {
        Some(RuleCommand::Write(TreeForm::Json))
    } else {
        None
    }
}

/// The command over a rule that the words ask for, where they are such a row of the command table.
fn rule_command<W: AsStr>(words: &[W]) -> Option<Command<'_>>
    ensures row { IsSome result → IsCommand (map W.text words.now) }
    ensures none { (file name : List ℕ) (reading : Reading) → IsOverRule (map W.text words.now) file name reading → IsSome result }
    ensures names { IfSome result (λ command. IsRowOf (map W.text words.now) command) }
{
    let (first, _) = words.split_first()?;
    let word = first.as_str();
    let rule = rule_words(word, words)?;
    if let Some(report) = report_of(word) {
        return Some(Command::Report(report, rule));
    }
    let command = answer_of(word)?;
    Some(Command::Answer(command, rule))
}

/// The command that the words ask for, where they are a row of the command table.
pub fn command_of<W: AsStr>(words: &[W]) -> Option<Command<'_>>
    ensures row { IsSome result ↔ IsCommand (map W.text words.now) }
    ensures names { IfSome result (λ command. IsRowOf (map W.text words.now) command) }
{
    if is_migrate(words) {
        return Some(Command::Migrate);
    }
    if let Some(reading) = reading_words("segments", words) {
        return Some(Command::Segments(reading));
    }
    if let Some(reading) = reading_words("replay", words) {
        return Some(Command::Replay(reading));
    }
    if let Some((entry, blocks)) = soak_words(words) {
        return Some(Command::Soak(entry, blocks));
    }
    if let Some(pair) = pair_words(words) {
        return Some(Command::Compat(pair));
    }
    if let Some((rule, certificate)) = verify_words(words) {
        return Some(Command::Verify(rule, certificate));
    }
    rule_command(words)
}
