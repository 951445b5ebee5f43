//! A source of bits, with a buffer of those that are held ready.

ghost use Rattle.std.specs.Prelude.{◌≡◌, ◌≢◌, ◌+◌, ◌-◌, ◌*◌, ◌^◌, ◌<◌, ◌≤◌, ◌⊎◌, ◌↔◌, IsTrue, true, false, [], ◌++◌, length, take, drop, min, IfSome, IfNone};
ghost use Rattle.csn_bits.specs.Octets.{IsBits, bits_of_octets};
ghost use Rattle.csn_bits.specs.Numbers.{number_of, low_bits};
ghost use Rattle.csn_judge.specs.Coming.{Coming, IsGood, IsSame, bits_from};

use csn_look::Word;
use std::marker::Model;

/// The most bits that are asked for at once.
pub(crate) const MOST_RUN: u32 = 56;

/// Bits that are held ready: the last `count` bits of the number.
#[derive(Clone, Copy)]
pub(crate) struct Held {
    pub number: u64,
    pub count: u32,
}

/// The bits of a block that are still to come.
#[derive(Drop)]
pub(crate) struct Source<'a> {
    /// These come first.
    held: Held,
    /// Then so many bits of the octets from `at` on.
    left: u32,
    piece: &'a [u8],
    at: usize,
    /// The place of the first bit.
    place: u32,
    /// The place where bits may be taken no longer: the innermost window ends.
    limit: u32,
    /// Whether the block ends behind them.
    ended: bool,
}

impl<'a> Model for Source<'a> {
    ghost use Rattle.csn_judge.specs.Coming.{Coming, coming_of, IsSource};

    ghost Value = { Coming };

    ghost view = { coming_of };

    ghost invariant = { IsSource };
}

impl<'a> Source<'a> {
    /// Held bits, and then the first bits of a piece.
    pub fn new(held: Held, piece: &'a [u8], bits: u32, place: u32, limit: u32) -> Source<'a>
        requires few { held.count ≤ 63 }
        requires within { bits ≤ 8 * length piece.now }
        requires fits { place + held.count + bits < 4294967295 }
        requires inside { place ≤ limit }
        ensures { result ≡ record {
          bits = low_bits held.count held.number ++ bits_from piece.now 0 bits;
          held = held.count;
          place = place;
          limit = limit;
          ended = false;
        } }
    {
        Source {
            held,
            left: bits,
            piece,
            at: 0,
            place,
            limit,
            ended: false,
        }
    }

    /// No bits, at the end of a block.
    pub fn end(place: u32, limit: u32) -> Source<'a>
        requires fits { place < 4294967295 }
        requires inside { place ≤ limit }
        ensures { result ≡ record { bits = []; held = 0; place = place; limit = limit; ended = true } }
    {
        Source {
            held: Held {
                number: 0,
                count: 0,
            },
            left: 0,
            piece: &[],
            at: 0,
            place,
            limit,
            ended: true,
        }
    }

    /// The bits that are held ready, to begin the next piece with.
    pub fn held(&self) -> Held
        ensures bits { low_bits result.count result.number ≡ take self.now.held self.now.bits }
        ensures count { result.count ≡ self.now.held }
    {
        self.held
    }

    /// The place of the next bit.
    #[inline(always)]
    pub fn place(&self) -> u32
        ensures place { result ≡ self.now.place }
        ensures fits { self.now.place + length self.now.bits < 4294967295 }
        ensures inside { self.now.place ≤ self.now.limit }
        ensures held { self.now.held ≤ length self.now.bits }
        ensures few { self.now.held ≤ 63 }
        ensures bits { IsBits self.now.bits }
        ensures nothing { self.now.ended ≡ true → self.now.bits ≡ [] }
    {
        self.place
    }

    /// A block that has ended has no bits to come.
    #[inline(always)]
    pub fn none_behind_end(&self)
        ensures { self.now.ended ≡ true → self.now.bits ≡ [] }
    {
        self.place();
    }

    /// The place where bits may be taken no longer.
    #[inline(always)]
    pub fn limit(&self) -> u32
        ensures { result ≡ self.now.limit }
    {
        self.limit
    }

    /// From here on bits may be taken up to this place.
    #[inline(always)]
    pub fn set_limit(&mut self, limit: u32)
        requires { self.old.place ≤ limit }
        ensures bits { self.new.bits ≡ self.old.bits }
        ensures held { self.new.held ≡ self.old.held }
        ensures place { self.new.place ≡ self.old.place }
        ensures limit { self.new.limit ≡ limit }
        ensures ended { self.new.ended ≡ self.old.ended }
    {
        self.limit = limit;
    }

    /// How many of the next bits may be taken, up to this number. So many are then held ready.
    #[inline(always)]
    pub fn ready(&mut self, most: u32) -> u32
        requires { most ≤ MOST_RUN }
        ensures count { result ≡ min most (min (length self.new.bits) (self.new.limit - self.new.place)) }
        ensures held { min most (length self.new.bits) ≤ self.new.held }
        ensures same { IsSame self.old self.new }
        ensures within { self.new.held ≤ length self.new.bits }
        ensures good { IsGood self.new }
    {
        self.want(most);
        most.min(self.held.count).min(self.limit - self.place)
    }

    /// Whether no bit may be taken any more, where none is ready.
    #[inline(always)]
    pub fn is_closed(&self) -> bool
        ensures { IsTrue result ↔ ((self.now.ended ≡ true) ⊎ (self.now.place ≡ self.now.limit)) }
    {
        self.ended || self.place == self.limit
    }

    /// Whether no bit comes.
    #[inline(always)]
    pub fn is_empty(&self) -> bool
        ensures { IsTrue result ↔ (self.now.bits ≡ []) }
    {
        !self.has_more(0)
    }

    /// Whether there are more bits than these.
    #[inline(always)]
    pub fn has_more(&self, count: u32) -> bool
        requires { count ≤ MOST_RUN }
        ensures { IsTrue result ↔ (count < length self.now.bits) }
    {
        self.held.count + self.left > count
    }

    /// The number that the next bits write, without taking them.
    #[inline(always)]
    pub fn peek(&self, count: u32) -> u64
        requires few { count ≤ MOST_RUN }
        requires held { count ≤ self.now.held }
        ensures value { result ≡ number_of (take count self.now.bits) }
        ensures small { result < 2 ^ count }
        ensures written { low_bits count result ≡ take count self.now.bits }
    {
        (self.held.number >> (self.held.count - count)) % (1 << count)
    }

    /// Takes the next bits, and answers the number that they write.
    #[inline(always)]
    pub fn take(&mut self, count: u32) -> u64
        requires few { count ≤ MOST_RUN }
        requires held { count ≤ self.old.held }
        requires inside { count ≤ self.old.limit - self.old.place }
        ensures value { result ≡ number_of (take count self.old.bits) }
        ensures small { result < 2 ^ count }
        ensures written { low_bits count result ≡ take count self.old.bits }
        ensures rest { self.new ≡ record {
          bits = drop count self.old.bits;
          held = self.old.held - count;
          place = self.old.place + count;
          limit = self.old.limit;
          ended = self.old.ended;
        } }
    {
        let number = self.peek(count);
        self.held.count -= count;
        self.place += count;
        number
    }

    /// The next bits as a word.
    pub fn word(&self, count: u32) -> Word
        requires few { count ≤ 12 }
        requires held { count ≤ self.now.held }
        ensures { result ≡ take count self.now.bits }
    {
        Word::of_bits(self.peek(count), count)
    }

    /// How many of the next bits are as in the number, up to the first that is not.
    pub fn alike(&self, count: u32, number: u64) -> u32
        requires few { count ≤ MOST_RUN }
        requires held { count ≤ self.now.held }
        requires small { number < 2 ^ count }
        ensures within { result ≤ count }
        ensures same { take result self.now.bits ≡ take result (low_bits count number) }
        ensures differs { result < count → take (result + 1) self.now.bits ≢ take (result + 1) (low_bits count number) }
    {
        let given = self.peek(count);
        if given == number {
            return count;
        }
        for at in 0..count {
            let behind = count - 1 - at;
            if given >> behind != number >> behind {
                return at;
            }
        }
        count
    }

    /// Holds so many bits ready, or all.
    #[inline(always)]
    fn want(&mut self, count: u32)
        requires { count ≤ MOST_RUN }
        ensures bits { self.new.bits ≡ self.old.bits }
        ensures held { min count (length self.new.bits) ≤ self.new.held }
        ensures place { self.new.place ≡ self.old.place }
        ensures limit { self.new.limit ≡ self.old.limit }
        ensures ended { self.new.ended ≡ self.old.ended }
    {
        if self.held.count < count {
            self.refill();
        }
    }

    /// Moves octets into the buffer, until as many bits are held as can be asked for, or all.
    #[inline]
    fn refill(&mut self)
        requires short { self.old.held < MOST_RUN }
        ensures bits { self.new.bits ≡ self.old.bits }
        ensures held { min MOST_RUN (length self.new.bits) ≤ self.new.held }
        ensures place { self.new.place ≡ self.old.place }
        ensures limit { self.new.limit ≡ self.old.limit }
        ensures ended { self.new.ended ≡ self.old.ended }
    {
        if self.left >= 64 {
            self.add_octets();
        } else {
            self.add_all();
        }
    }

    /// As many whole octets as the buffer has room for.
    fn add_octets(&mut self)
        requires short { self.old.held < MOST_RUN }
        requires many { self.old.held + 64 ≤ length self.old.bits }
        ensures bits { self.new.bits ≡ self.old.bits }
        ensures held { MOST_RUN ≤ self.new.held }
        ensures place { self.new.place ≡ self.old.place }
        ensures limit { self.new.limit ≡ self.old.limit }
        ensures ended { self.new.ended ≡ self.old.ended }
    {
        let octets = (63 - self.held.count) / 8;
        let bits = 8 * octets;
        let all = eight_octets(self.piece, self.at);
        self.held.number = self.held.number << bits | all >> (64 - bits);
        self.held.count += bits;
        self.at += octets as usize;
        self.left -= bits;
    }

    /// An octet at a time.
    fn add_all(&mut self)
        ensures bits { self.new.bits ≡ self.old.bits }
        ensures held { min MOST_RUN (length self.new.bits) ≤ self.new.held }
        ensures place { self.new.place ≡ self.old.place }
        ensures limit { self.new.limit ≡ self.old.limit }
        ensures ended { self.new.ended ≡ self.old.ended }
    {
        while self.held.count < MOST_RUN && self.left > 0 {
            self.add_octet();
        }
    }

    /// The next octet, or what belongs to the piece of it.
    fn add_octet(&mut self)
        requires short { self.old.held < MOST_RUN }
        requires some { self.old.held < length self.old.bits }
        ensures bits { self.new.bits ≡ self.old.bits }
        ensures held { self.new.held ≡ min (self.old.held + 8) (length self.old.bits) }
        ensures place { self.new.place ≡ self.old.place }
        ensures limit { self.new.limit ≡ self.old.limit }
        ensures ended { self.new.ended ≡ self.old.ended }
    {
        let bits = self.left.min(8);
        let octet = self.piece[self.at];
        self.held.number = self.held.number << bits | (octet >> (8 - bits)) as u64;
        self.held.count += bits;
        self.at += 1;
        self.left -= bits;
    }
}

/// The number that the next eight octets write.
fn eight_octets(piece: &[u8], at: usize) -> u64
    requires { at + 8 ≤ length piece.now }
    ensures { low_bits 64 result ≡ bits_of_octets (take 8 (drop at piece.now)) }
{
    let (a, b, c, d) = (piece[at], piece[at + 1], piece[at + 2], piece[at + 3]);
    let (e, f, g, h) = (piece[at + 4], piece[at + 5], piece[at + 6], piece[at + 7]);
    u64::from_be_bytes([a, b, c, d, e, f, g, h])
}
