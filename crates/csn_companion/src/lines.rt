//! The lines of an input, each answered by itself.

ghost use Rattle.std.specs.Prelude.{◌≡◌, ◌⊎◌, ◌+◌, ◌<◌, ◌≤◌, ◌++◌, [], ◌∷◌, length, Err, IfErr, IfSome, OnOk};
ghost use Rattle.csn_io.specs.Faults.{Keeps, Rose};
ghost use Rattle.csn_io.specs.Got.{IfBytes, OnFailed};
ghost use Rattle.csn_lines.specs.declared.lines.TheConstants.{LINE_FEED, MOST_INPUT};

use csn_explaining::{Answered, LineTeller};
use csn_io::{Got, Sink, Source};
use csn_lines::{Fault, LINE_FEED, MOST_INPUT, pass_on};
use memchr::memchr;
use std::alloc::{AllocError, Global};

/// The most bytes that are asked for at once.
const PIECE: usize = 4096;

/// What may stand before a line feed, and is no part of the line.
const CARRIAGE_RETURN: u8 = b'\r';

/// What stands between the input and the output.
#[derive(Drop)]
pub struct Lines {
    /// The bytes of the line that has not ended.
    line: Vec<u8>,
    /// The answers that the sink has not taken.
    pub pending: Vec<u8>,
    /// Whether some line was refused.
    pub refused: bool,
}

/// The bytes before the first line feed, and those behind it.
fn split_at_feed(bytes: &[u8]) -> Option<(&[u8], &[u8])>
    ensures { IfSome result (λ parts. bytes.now ≡ parts.0.now ++ LINE_FEED ∷ parts.1.now) }
{
    let end = memchr(LINE_FEED, bytes)?;
    Some((&bytes[..end], &bytes[end + 1..]))
}

/// A line without the carriage return at its end.
fn without_return(line: &[u8]) -> &[u8]
    ensures { length result.now ≤ length line.now }
{
    match line {
        [front @ .., CARRIAGE_RETURN] => front,
        _ => line,
    }
}

/// Asks a source for at most so many bytes.
fn take_piece<S: Source>(input: &mut S, buffer: &mut [u8], room: usize) -> Got
    requires buffer { 0 < length buffer.old }
    requires room { 0 < room }
    ensures at_least_one { IfBytes result (λ n. 0 < n) }
    ensures within { IfBytes result (λ n. n ≤ length buffer.new) }
    ensures room { IfBytes result (λ n. n ≤ room) }
    ensures failed { OnFailed result (Rose (S.faults input.old) (S.faults input.new)) }
    ensures outside { Keeps (S.steady input.old) (S.steady input.new) (S.faults input.old) (S.faults input.new) (result ≡ Got.Failed) }
{
    let most = room.min(buffer.len());
    input.take(&mut buffer[..most])
}

impl Lines {
    pub fn new(alloc: Global) -> Lines
        ensures { result.line.items ≡ [] }
    {
        Lines {
            line: Vec::new(alloc),
            pending: Vec::new(alloc),
            refused: false,
        }
    }

    /// Answers the line that ends here, and stands at the next one. An empty line gives nothing.
    fn end_line<T: LineTeller>(&mut self, teller: &mut T, alloc: Global) -> Result<(), AllocError>
        requires { length self.old.line.items ≤ MOST_INPUT }
        ensures { OnOk result (self.new.line.items ≡ []) }
    {
        let start = self.pending.len();
        let line = without_return(&self.line);
        if line.len() > 0 {
            match teller.tell(alloc, line, &mut self.pending) {
                Ok(Answered::Given) => {}
                Ok(Answered::Refused) => self.refused = true,
                Err(error) => {
                    self.pending.truncate(start);
                    return Err(error);
                }
            }
        }
        self.line.clear();
        Ok(())
    }

    /// Takes the next bytes, and answers each line whose line feed is among them.
    fn take<T: LineTeller>(
        &mut self,
        teller: &mut T,
        alloc: Global,
        piece: &[u8],
    ) -> Result<(), AllocError>
        requires { length self.old.line.items + length piece.now ≤ MOST_INPUT }
        ensures { OnOk result (length self.new.line.items ≤ length self.old.line.items + length piece.now) }
    {
        let mut rest = piece;
        while let Some((front, back)) = split_at_feed(rest) {
            self.line.extend_from_slice(front)?;
            self.end_line(teller, alloc)?;
            rest = back;
        }
        self.line.extend_from_slice(rest)
    }

    /// Takes the next bytes, and hands the answers to the sink.
    fn pass_piece<T: LineTeller, K: Sink>(
        &mut self,
        teller: &mut T,
        alloc: Global,
        piece: &[u8],
        out: &mut K,
    ) -> Result<(), Fault>
        requires fits { length self.old.line.items + length piece.now ≤ MOST_INPUT }
        requires unfailed { K.faults out.old ≡ 0 }
        ensures line { OnOk result (length self.new.line.items ≤ length self.old.line.items + length piece.now) }
        ensures causes { IfErr result (λ fault. (fault ≡ Fault.Write) ⊎ (fault ≡ Fault.Memory)) }
        ensures write { result ≡ Err Fault.Write → Rose (K.faults out.old) (K.faults out.new) }
        ensures out { Keeps (K.steady out.old) (K.steady out.new) (K.faults out.old) (K.faults out.new) (result ≡ Err Fault.Write) }
    {
        match self.take(teller, alloc, piece) {
            Ok(()) => pass_on(&mut self.pending, out),
            Err(AllocError) => Err(Fault::Memory),
        }
    }

    /// Answers all lines of the input. The sink has taken the answers to a piece before the next piece is asked for; the
    /// answer to a last line without a line feed is left pending.
    pub fn answer_all<T: LineTeller, S: Source, K: Sink>(
        &mut self,
        teller: &mut T,
        alloc: Global,
        input: &mut S,
        out: &mut K,
    ) -> Result<(), Fault>
        requires line { self.old.line.items ≡ [] }
        requires unfailed { K.faults out.old ≡ 0 }
        ensures read { result ≡ Err Fault.Read → Rose (S.faults input.old) (S.faults input.new) }
        ensures write { result ≡ Err Fault.Write → Rose (K.faults out.old) (K.faults out.new) }
        ensures input { Keeps (S.steady input.old) (S.steady input.new) (S.faults input.old) (S.faults input.new) (result ≡ Err Fault.Read) }
        ensures out { Keeps (K.steady out.old) (K.steady out.new) (K.faults out.old) (K.faults out.new) (result ≡ Err Fault.Write) }
    {
        let mut buffer = [0u8; PIECE];
        let mut room = MOST_INPUT + 1;
        'pieces: loop {
            match take_piece(input, &mut buffer, room) {
                Got::Bytes(n) if n == room => {
                    self.pass_piece(teller, alloc, &buffer[..n - 1], out)?;
                    return Err(Fault::TooLong);
                }
                Got::Bytes(n) => {
                    self.pass_piece(teller, alloc, &buffer[..n], out)?;
                    room -= n;
                }
                Got::End => {
                    self.end_line(teller, alloc)?;
                    return Ok(());
                }
                Got::Failed => return Err(Fault::Read),
            }
        }
    }
}
