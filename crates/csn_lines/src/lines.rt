//! The lines of an input, each answered as soon as its line feed was taken.

ghost use Rattle.std.specs.Prelude.{◌≡◌, ◌≤◌, ◌<◌, ◌+◌, ◌⊎◌, ◌||◌, [], ◌∷◌, ◌++◌, List, ℕ, Bool, length, take, false};
ghost use Rattle.std.specs.Prelude.{OnOk, OnErr, IfOk, IfErr, IfNone, IfSome};
ghost use Rattle.csn_io.specs.Faults.{Keeps, Rose};
ghost use Rattle.csn_io.specs.Got.{IfBytes, OnEnd, OnFailed, UnlessBytes, Gave, NothingLeft};
ghost use Rattle.csn_io.specs.Put.{Appended};
ghost use Rattle.csn_lines.specs.declared.lines.TheConstants.{LINE_FEED, MOST_INPUT, PIECE};
ghost use Rattle.csn_lines.specs.Lines.{HasNoFeed, without_return, is_refusal, is_refused};
ghost use Rattle.csn_lines.specs.Reading.{AtLine, IsFresh, OnlyGives, return_of};
ghost use Rattle.csn_lines.specs.Progress.{AddsAnswers, Advances, Closes, Halts, PassesOn, HaltsAt, AnswersAll, Stops};
ghost use Rattle.csn_lines.specs.LineState.{closing_of};
ghost use Rattle.csn_lines.specs.Work.{Works};

use crate::fault::Fault;
use crate::output::pass_on;
use csn_io::{Got, Sink, Source};
use memchr::memchr;
use std::alloc::{AllocError, Global};

/// The most bytes that an input may have.
pub const MOST_INPUT: usize = 16_777_216;

/// The end of a line.
pub const LINE_FEED: u8 = b'\n';

/// What may stand before it, and is no part of the line.
const CARRIAGE_RETURN: u8 = b'\r';

/// The most bytes that are asked for at once.
const PIECE: usize = 4096;

/// What a line was given.
#[derive(Clone, Copy, Debug, Drop, PartialEq, Eq)]
pub enum Answered {
    /// What it asks for.
    Given,
    /// The reason why it gets nothing.
    Refused,
}

/// What a line was given, where there was memory for it.
pub type LineResult = Result<Answered, AllocError>;

/// A command that takes each line of the input as it comes, and answers it at its line feed. The answer may depend on the
/// lines before it.
pub trait LineCommand {
    ghost use Rattle.csn_lines.specs.LineState.{Kept};
    ghost use Rattle.csn_lines.specs.Work.{LineWork};

    /// What it does.
    ghost work: { Self → LineWork };

    /// What it keeps of the lines so far.
    ghost kept: { Self → Kept };

    /// That these are the bytes that it has taken of the open line.
    ghost reads: { Self → List ℕ → Type 0 };

    /// Takes the next bytes of the line. The carriage return at its end and the line feed are no part of it.
    fn take(&mut self, bytes: &[u8]) -> Result<(), AllocError>
        requires { (line : List ℕ) × reads self.old line × (length line + length bytes.now ≤ MOST_INPUT) }
        ensures reads { OnOk result ((line : List ℕ) → reads self.old line → reads self.new (line ++ bytes.now)) }
        ensures work { work self.new ≡ work self.old }
        ensures kept { kept self.new ≡ kept self.old };

    /// Writes what the line gives, with its line feed, and stands at the next line.
    fn answer(&mut self, alloc: Global, out: &mut Vec<u8>) -> LineResult
        requires { (line : List ℕ) × reads self.old line × (0 < length line) × (length line ≤ MOST_INPUT) }
        ensures ok { IfOk result (λ answered. (line : List ℕ) → reads self.old line → 0 < length line → (text : List ℕ)
            × (out.new.items ≡ out.old.items ++ text) × Works (work self.old) (kept self.old) line text (kept self.new)
            × (is_refused answered ≡ is_refusal text)) }
        ensures anew { OnOk result (reads self.new []) }
        ensures work { work self.new ≡ work self.old }
        ensures err { OnErr result ((tail : List ℕ) × (out.new.items ≡ out.old.items ++ tail)) };

    /// Writes what stands behind the last line.
    fn close(&mut self, alloc: Global, out: &mut Vec<u8>) -> Result<(), AllocError>
        ensures ok { OnOk result (out.new.items ≡ out.old.items ++ closing_of (kept self.old)) }
        ensures err { OnErr result ((tail : List ℕ) × (out.new.items ≡ out.old.items ++ tail)) };
}

/// Bytes without the carriage return at their end, and whether one stood there.
fn split_return(bytes: &[u8]) -> (&[u8], bool)
    ensures front { result.0.now ≡ without_return bytes.now }
    ensures all { bytes.now ≡ result.0.now ++ return_of result.1 }
{
    match bytes {
        [front @ .., CARRIAGE_RETURN] => (front, true),
        _ => (bytes, false),
    }
}

/// The bytes before the first line feed, and those behind it.
fn split_at_feed(bytes: &[u8]) -> Option<(&[u8], &[u8])>
    ensures none { IfNone result (HasNoFeed bytes.now) }
    ensures some { IfSome result (λ parts. (bytes.now ≡ parts.0.now ++ LINE_FEED ∷ parts.1.now) × HasNoFeed parts.0.now) }
{
    let end = memchr(LINE_FEED, bytes)?;
    Some((&bytes[..end], &bytes[end + 1..]))
}

/// Writes what the open line gives, of which the command has taken so many bytes, and tells whether the line was refused.
/// An empty line gives nothing.
fn answer_line<C: LineCommand>(
    command: &mut C,
    alloc: Global,
    given: usize,
    out: &mut Vec<u8>,
) -> Result<bool, AllocError>
    requires { (held : Bool) × (line : List ℕ) × AtLine (C.reads command.old) given held line × (length line ≤ MOST_INPUT) }
    ensures ok { IfOk result (λ refused. (held : Bool) (line : List ℕ) → AtLine (C.reads command.old) given held line
        → AddsAnswers (Works (C.work command.old)) (C.kept command.old) (line ∷ []) out.old.items out.new.items (C.kept command.new) refused) }
    ensures anew { OnOk result (C.reads command.new []) }
    ensures work { C.work command.new ≡ C.work command.old }
    ensures err { OnErr result (out.new.items ≡ out.old.items) }
{
    if given == 0 {
        return Ok(false);
    }
    let start = out.len();
    match command.answer(alloc, out) {
        Ok(Answered::Given) => Ok(false),
        Ok(Answered::Refused) => Ok(true),
        Err(error) => {
            out.truncate(start);
            Err(error)
        }
    }
}

/// Asks a source for at most so many bytes.
fn take_piece<S: Source>(input: &mut S, buffer: &mut [u8], room: usize) -> Got
    requires buffer { 0 < length buffer.old }
    requires piece { length buffer.old ≤ PIECE }
    requires room { 0 < room }
    ensures gave { IfBytes result (λ n. Gave (S.left input.old) (S.left input.new) (take n buffer.new)) }
    ensures at_least_one { IfBytes result (λ n. 0 < n) }
    ensures within { IfBytes result (λ n. n ≤ length buffer.new) }
    ensures piece { IfBytes result (λ n. n ≤ PIECE) }
    ensures room { IfBytes result (λ n. n ≤ room) }
    ensures end { OnEnd result (NothingLeft (S.left input.old)) }
    ensures left_stays { UnlessBytes result (S.left input.new ≡ S.left input.old) }
    ensures failed { OnFailed result (Rose (S.faults input.old) (S.faults input.new)) }
    ensures outside { Keeps (S.steady input.old) (S.steady input.new) (S.faults input.old) (S.faults input.new) (result ≡ Got.Failed) }
{
    let most = room.min(buffer.len());
    input.take(&mut buffer[..most])
}

/// What stands between the input and the output of a job over lines.
#[derive(Drop)]
pub struct Lines {
    /// How many bytes of the line that has not ended the command has taken.
    given: usize,
    /// Whether a carriage return waits behind these. It is no part of the line if a line feed comes next.
    held: bool,
    /// The answers that the sink has not taken.
    pub pending: Vec<u8>,
    /// Whether some line was refused.
    pub refused: bool,
}

impl Lines {
    pub fn new(alloc: Global) -> Lines
        ensures line { IsFresh result }
        ensures pending { result.pending.items ≡ [] }
        ensures refused { result.refused ≡ false }
    {
        Lines {
            given: 0,
            held: false,
            pending: Vec::new(alloc),
            refused: false,
        }
    }

    /// Gives the return that waits to the command, since it does not end the line.
    fn give_held<C: LineCommand>(&mut self, command: &mut C) -> Result<(), AllocError>
        requires { (line : List ℕ) × AtLine (C.reads command.old) self.old.given self.old.held line × (length line ≤ MOST_INPUT) }
        ensures ok { OnOk result ((line : List ℕ) → AtLine (C.reads command.old) self.old.given self.old.held line
            → C.reads command.new line × (self.new.given ≡ length line)) }
        ensures rest { OnlyGives (C.work command.old) (C.work command.new) (C.kept command.old) (C.kept command.new) self.old self.new }
    {
        if self.held {
            command.take(&[CARRIAGE_RETURN])?;
            self.given += 1;
        }
        Ok(())
    }

    /// Gives bytes of the open line to the command, but for a return at their end, which waits.
    fn give<C: LineCommand>(&mut self, command: &mut C, bytes: &[u8]) -> Result<(), AllocError>
        requires at { (line : List ℕ) × AtLine (C.reads command.old) self.old.given self.old.held line
            × (length line + length bytes.now ≤ MOST_INPUT) }
        requires unended { HasNoFeed bytes.now }
        ensures ok { OnOk result ((line : List ℕ) → AtLine (C.reads command.old) self.old.given self.old.held line
            → AtLine (C.reads command.new) self.new.given self.new.held (line ++ bytes.now)) }
        ensures rest { OnlyGives (C.work command.old) (C.work command.new) (C.kept command.old) (C.kept command.new) self.old self.new }
    {
        if bytes.len() == 0 {
            return Ok(());
        }
        self.give_held(command)?;
        let (front, held) = split_return(bytes);
        command.take(front)?;
        self.given += front.len();
        self.held = held;
        Ok(())
    }

    /// Answers the line that ends here, and stands at the next one.
    fn end_line<C: LineCommand>(&mut self, command: &mut C, alloc: Global) -> Result<(), AllocError>
        requires { (line : List ℕ) × AtLine (C.reads command.old) self.old.given self.old.held line × (length line ≤ MOST_INPUT) }
        ensures ok { OnOk result ((line : List ℕ) → AtLine (C.reads command.old) self.old.given self.old.held line → (refused : Bool)
            × AddsAnswers (Works (C.work command.old)) (C.kept command.old) (line ∷ [])
            self.old.pending.items self.new.pending.items (C.kept command.new) refused
            × (self.new.refused ≡ (self.old.refused || refused))) }
        ensures anew { OnOk result (AtLine (C.reads command.new) self.new.given self.new.held []) }
        ensures work { C.work command.new ≡ C.work command.old }
        ensures err { OnErr result (self.new.pending.items ≡ self.old.pending.items) }
    {
        let refused = answer_line(command, alloc, self.given, &mut self.pending)?;
        self.refused = self.refused || refused;
        self.given = 0;
        self.held = false;
        Ok(())
    }

    /// Answers the last line, and writes what stands behind it.
    fn end_input<C: LineCommand>(
        &mut self,
        command: &mut C,
        alloc: Global,
    ) -> Result<(), AllocError>
        requires { (line : List ℕ) × AtLine (C.reads command.old) self.old.given self.old.held line × (length line ≤ MOST_INPUT) }
        ensures ok { OnOk result ((line : List ℕ) → AtLine (C.reads command.old) self.old.given self.old.held line
            → Closes (Works (C.work command.old)) closing_of (C.kept command.old) line
            self.old.pending.items self.new.pending.items self.old.refused self.new.refused) }
        ensures err { OnErr result (self.new.pending.items ≡ self.old.pending.items) }
    {
        let start = self.pending.len();
        self.end_line(command, alloc)?;
        if let Err(error) = command.close(alloc, &mut self.pending) {
            self.pending.truncate(start);
            return Err(error);
        }
        Ok(())
    }

    /// Takes the next bytes, and answers each line whose line feed is among them.
    fn take<C: LineCommand>(
        &mut self,
        command: &mut C,
        alloc: Global,
        piece: &[u8],
    ) -> Result<(), AllocError>
        requires { (line : List ℕ) × AtLine (C.reads command.old) self.old.given self.old.held line
            × (length line + length piece.now ≤ MOST_INPUT) }
        ensures ok { OnOk result ((line : List ℕ) → AtLine (C.reads command.old) self.old.given self.old.held line
            → (line' : List ℕ) × AtLine (C.reads command.new) self.new.given self.new.held line' × (refused : Bool)
            × Advances (Works (C.work command.old)) (C.kept command.old) (line ++ piece.now)
            line' self.old.pending.items self.new.pending.items (C.kept command.new) refused
            × (self.new.refused ≡ (self.old.refused || refused)) × (length line' ≤ length line + length piece.now)) }
        ensures work { OnOk result (C.work command.new ≡ C.work command.old) }
        ensures err { OnErr result ((line : List ℕ) → AtLine (C.reads command.old) self.old.given self.old.held line
            → Halts (Works (C.work command.old)) (C.kept command.old)
            (line ++ piece.now) self.old.pending.items self.new.pending.items) }
    {
        let mut rest = piece;
        while let Some((front, back)) = split_at_feed(rest) {
            self.give(command, front)?;
            self.end_line(command, alloc)?;
            rest = back;
        }
        self.give(command, rest)?;
        Ok(())
    }

    /// Takes the next bytes, and hands the answers to the sink.
    fn pass_piece<C: LineCommand, K: Sink>(
        &mut self,
        command: &mut C,
        alloc: Global,
        piece: &[u8],
        out: &mut K,
    ) -> Result<(), Fault>
        requires at { (line : List ℕ) × AtLine (C.reads command.old) self.old.given self.old.held line
            × (length line + length piece.now ≤ MOST_INPUT) }
        requires pending { self.old.pending.items ≡ [] }
        requires unfailed { K.faults out.old ≡ 0 }
        ensures ok { OnOk result ((line : List ℕ) → AtLine (C.reads command.old) self.old.given self.old.held line
            → (line' : List ℕ) × AtLine (C.reads command.new) self.new.given self.new.held line'
            × PassesOn (Works (C.work command.old)) (C.kept command.old) (line ++ piece.now)
            line' (K.taken out.old) (K.taken out.new) (C.kept command.new) self.old.refused self.new.refused
            × (length line' ≤ length line + length piece.now)) }
        ensures work { OnOk result (C.work command.new ≡ C.work command.old) }
        ensures pending { OnOk result (self.new.pending.items ≡ []) }
        ensures err { OnErr result ((line : List ℕ) → AtLine (C.reads command.old) self.old.given self.old.held line
            → HaltsAt (Works (C.work command.old)) (C.kept command.old)
            (line ++ piece.now) (K.taken out.old) (K.taken out.new) self.new.pending.items) }
        ensures causes { IfErr result (λ fault. (fault ≡ Fault.Write) ⊎ (fault ≡ Fault.Memory)) }
        ensures write { result ≡ Err Fault.Write → Rose (K.faults out.old) (K.faults out.new) }
        ensures out { Keeps (K.steady out.old) (K.steady out.new) (K.faults out.old) (K.faults out.new) (result ≡ Err Fault.Write) }
    {
        match self.take(command, alloc, piece) {
            Ok(()) => pass_on(&mut self.pending, out),
            Err(AllocError) => Err(Fault::Memory),
        }
    }

    /// Answers all lines of the input. The sink has taken the answers to a piece before the next
    /// piece is asked for; the answer to a last line without a line feed is left pending, and so is
    /// what stands behind it.
    pub fn answer_all<C: LineCommand, S: Source, K: Sink>(
        &mut self,
        command: &mut C,
        alloc: Global,
        input: &mut S,
        out: &mut K,
    ) -> Result<(), Fault>
        requires begin { C.reads command.old [] }
        requires line { IsFresh self.old }
        requires pending { self.old.pending.items ≡ [] }
        requires refused { self.old.refused ≡ false }
        requires unfailed { K.faults out.old ≡ 0 }
        ensures read { result ≡ Err Fault.Read → Rose (S.faults input.old) (S.faults input.new) }
        ensures write { result ≡ Err Fault.Write → Rose (K.faults out.old) (K.faults out.new) }
        ensures ok { OnOk result (AnswersAll (Works (C.work command.old)) closing_of (C.kept command.old)
            (S.left input.old) (S.left input.new) (K.taken out.old) (K.taken out.new) self.new.pending.items self.new.refused) }
        ensures err { IfErr result (λ fault. Stops (Works (C.work command.old)) (C.kept command.old) fault
            (S.left input.old) (S.left input.new) (K.taken out.old) (K.taken out.new) self.new.pending.items) }
        ensures input { Keeps (S.steady input.old) (S.steady input.new) (S.faults input.old) (S.faults input.new) (result ≡ Err Fault.Read) }
        ensures out { Keeps (K.steady out.old) (K.steady out.new) (K.faults out.old) (K.faults out.new) (result ≡ Err Fault.Write) }
    {
        let mut buffer = [0u8; PIECE];
        let mut room = MOST_INPUT + 1;
        'pieces: loop {
            match take_piece(input, &mut buffer, room) {
                Got::Bytes(n) if n == room => {
                    self.pass_piece(command, alloc, &buffer[..n - 1], out)?;
                    return Err(Fault::TooLong);
                }
                Got::Bytes(n) => {
                    self.pass_piece(command, alloc, &buffer[..n], out)?;
                    room -= n;
                }
                Got::End => {
                    self.end_input(command, alloc)?;
                    return Ok(());
                }
                Got::Failed => return Err(Fault::Read),
            }
        }
    }
}
