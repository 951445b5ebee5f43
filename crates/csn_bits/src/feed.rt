ghost use Rattle.std.specs.Prelude.{◌≡◌, ℕ, codes, ◌+◌, ◌*◌, ◌/◌, ◌<◌, ◌≤◌, ◌↔◌, List, [], ◌∷◌, ◌++◌, drop, length, take, IsTrue, IfNone, IfSome, Some};
ghost use Rattle.std.specs.Option.{ForSome};

use crate::digit::{counted_bits, decode_pairs, digit_value};
use crate::fault::LineWhy;

/// The most bytes of a line.
pub const MOST_LINE: u32 = 16_777_216;

/// The most octets of a block.
pub(crate) const MOST_OCTETS: u32 = 65_536;

/// A block line that is read byte by byte. It takes no memory.
#[derive(Debug, Drop)]
pub struct HexFeed {
    seen: u32,
    stage: Stage,
    // the value of the digit that waits for its partner
    waiting: Option<u8>,
    // the octet of the last whole pair of digits
    last: Option<u8>,
    ghost small: { ForSome waiting (λ value. value < 16) },
}

/// How far a line was read.
#[derive(Clone, Copy, Debug, Drop)]
enum Stage {
    /// Only digits, or nothing yet.
    Digits,
    /// `.` alone.
    Dot,
    /// A byte before any `/` that is no digit.
    BadDigit { column: u32 },
    /// The first `/`, after so many digits.
    Slash { digits: u32 },
    /// One byte after it.
    Tail { digits: u32, byte: u8 },
    /// More bytes after it.
    LongTail,
}

/// What one more byte gave.
#[derive(Clone, Copy, Debug, Drop, PartialEq, Eq)]
pub enum HexStep {
    Nothing,
    /// The next octet of the block, of which all eight bits belong to it.
    Octet(u8),
}

/// Whole pairs of digits that a feed took at once. What they give stands in the room from a place on, up to half as many
/// octets as there are digits.
#[derive(Clone, Copy, Debug, Drop, PartialEq, Eq)]
pub struct Pairs {
    /// How many bytes were taken.
    pub bytes: usize,
    /// The place in the room.
    pub from: usize,
}

/// How a line ended.
#[derive(Clone, Copy, Debug, Drop, PartialEq, Eq)]
pub enum HexEnd {
    /// The line is `.`, the block without bits.
    Empty,
    /// The block ends with the first `bits` bits of this octet, 1 to 8.
    Last { octet: u8, bits: u8 },
    /// The line is no block line.
    Fault(LineWhy),
}

impl HexFeed {
    ghost use Rattle.hex.specs.Hex.{hex_digit_value};
    ghost use Rattle.csn_bits.specs.Feed.{EndsDigits, EndsLine, Fed, Gives, Keeps, fault_of_end, octets_given, seen_of};
    ghost use Rattle.csn_bits.specs.Line.{fault_of};

    /// A feed that was given nothing yet.
    pub fn new() -> HexFeed
        ensures fed { Fed result [] }
        ensures seen { seen_of result ≡ 0 }
    {
        HexFeed {
            seen: 0,
            stage: Stage::Digits,
            waiting: None,
            last: None,
        }
    }

    /// How many bytes were fed.
    pub fn seen(&self) -> u32
        ensures { result ≡ seen_of self.now }
    {
        self.seen
    }

    /// Takes the next byte of the line. The octet of the last pair of digits is held back, since
    /// only the end of the line says which of its bits belong to the block.
    pub fn byte(&mut self, byte: u8) -> HexStep
        requires { seen_of self.old < MOST_LINE }
        ensures fed { (line : List ℕ) → Fed self.old line → Fed self.new (line ++ byte ∷ []) }
        ensures given { (line : List ℕ) → Fed self.old line → Gives line byte result }
        ensures seen { seen_of self.new ≡ seen_of self.old + 1 }
    {
        let column = self.seen;
        self.seen += 1;
        match digit_value(byte) {
            Some(value) if self.stage.is_digits() => self.digit(value),
            _ => {
                self.stage = self.stage.after(byte, column);
                HexStep::Nothing
            }
        }
    }

    /// Takes the whole pairs of digits that some bytes begin with, where only whole pairs were read before, and no more than
    /// a block has octets. What they give, the octet of the last pair held back, stands then in the room.
    pub fn pairs(&mut self, bytes: &[u8], room: &mut [u8]) -> Option<Pairs>
        requires { length bytes.now + 2 ≤ 2 * length room.old }
        ensures fed { IfSome result (λ pairs. (line : List ℕ) → Fed self.old line → Fed self.new (line ++ take pairs.bytes bytes.now)) }
        ensures given { IfSome result (λ pairs. (line : List ℕ) → Fed self.old line
            → octets_given (line ++ take pairs.bytes bytes.now) ≡ octets_given line ++ drop pairs.from (take (pairs.bytes / 2) room.new)) }
        ensures seen { IfSome result (λ pairs. seen_of self.new ≡ seen_of self.old + pairs.bytes) }
        ensures some { IfSome result (λ pairs. 0 < pairs.bytes) }
        ensures within { IfSome result (λ pairs. pairs.bytes ≤ length bytes.now) }
        ensures from { IfSome result (λ pairs. pairs.from ≤ pairs.bytes / 2) }
        ensures none { IfNone result (self.new ≡ self.old) }
        ensures room { length room.new ≡ length room.old }
    {
        let (Stage::Digits, None) = (self.stage, self.waiting) else {
            return None;
        };
        let left = (2 * MOST_OCTETS).checked_sub(self.seen)? as usize;
        let count = decode_pairs(&bytes[..bytes.len().min(left)], &mut room[1..]);
        if count == 0 {
            return None;
        }
        self.seen += 2 * count as u32;
        let from = match self.last.replace(room[count]) {
            Some(octet) => {
                room[0] = octet;
                0
            }
            None => 1,
        };
        Some(Pairs {
            bytes: 2 * count,
            from,
        })
    }

    // Takes the value of a digit, which is counted already, while only digits were read.
    #[inline]
    fn digit(&mut self, value: u8) -> HexStep
        requires digits { self.old.stage ≡ Stage.Digits }
        requires small { value < 16 }
        ensures keeps { (line : List ℕ) (digit : ℕ) → Keeps self.old line
            → hex_digit_value digit ≡ Some value → Keeps self.new (line ++ digit ∷ []) }
        ensures given { (line : List ℕ) (digit : ℕ) → Keeps self.old line
            → hex_digit_value digit ≡ Some value → self.old.seen ≡ length line + 1
            → Gives line digit result }
        ensures seen { self.new.seen ≡ self.old.seen }
    {
        let Some(high) = self.waiting else {
            self.waiting = Some(value);
            return HexStep::Nothing;
        };
        let before = self.last;
        self.waiting = None;
        self.last = Some(16 * high + value);
        match before {
            Some(octet) if self.seen <= 2 * (MOST_OCTETS + 1) => HexStep::Octet(octet),
            _ => HexStep::Nothing,
        }
    }

    /// Ends the line.
    pub fn finish(self) -> HexEnd
        ensures ends { (line : List ℕ) → Fed self line → EndsLine line result }
        ensures fault { (line : List ℕ) → Fed self line → fault_of line ≡ fault_of_end result }
        ensures empty { Fed self (codes ".") → result ≡ HexEnd.Empty }
    {
        match self.stage {
            Stage::Dot => HexEnd::Empty,
            Stage::BadDigit { column } => HexEnd::Fault(LineWhy::BadDigit { column }),
            Stage::Digits => self.ended(self.seen, Some(8)),
            Stage::Tail { digits, byte } => self.ended(digits, counted_bits(byte)),
            Stage::Slash { .. } | Stage::LongTail => HexEnd::Fault(LineWhy::BadLength),
        }
    }

    // The end of a line of so many digits and a tail that counts `used` bits of the last octet.
    fn ended(&self, digits: u32, used: Option<u8>) -> HexEnd
        requires { ForSome used (λ n. (1 ≤ n) × (n ≤ 8)) }
        ensures { EndsDigits self.now.waiting self.now.last digits used result }
    {
        let (None, Some(octet), Some(bits)) = (self.waiting, self.last, used) else {
            return HexEnd::Fault(LineWhy::BadLength);
        };
        if octet % (1 << (8 - bits)) != 0 {
            HexEnd::Fault(LineWhy::BadFill)
        } else if digits > 2 * MOST_OCTETS {
            HexEnd::Fault(LineWhy::TooManyBits)
        } else {
            HexEnd::Last { octet, bits }
        }
    }
}

impl Stage {
    ghost use Rattle.csn_bits.specs.Feed.{stage_after};

    fn is_digits(self) -> bool
        ensures { IsTrue result ↔ (self ≡ Stage.Digits) }
    {
        match self {
            Stage::Digits => true,
            _ => false,
        }
    }

    // The stage after a byte that is no digit before a `/`; `column` bytes stand before it.
    fn after(self, byte: u8, column: u32) -> Stage
        ensures { result ≡ stage_after self byte column }
    {
        match self {
            Stage::Digits if byte == b'/' => Stage::Slash { digits: column },
            Stage::Digits if byte == b'.' && column == 0 => Stage::Dot,
            Stage::Digits => Stage::BadDigit { column },
            Stage::Dot => Stage::BadDigit { column: 0 },
            Stage::BadDigit { column } => Stage::BadDigit { column },
            Stage::Slash { digits } => Stage::Tail { digits, byte },
            Stage::Tail { .. } | Stage::LongTail => Stage::LongTail,
        }
    }
}
