//! The bits of a block that are drawn, leaf after leaf. What they are is known only when they are judged.

ghost use Rattle.std.specs.Prelude.{◌≡◌, ◌-◌, ◌%◌, ◌^◌, ◌<◌, ◌≤◌, ◌↔◌, ℕ, List, [], ◌∷◌, ◌++◌, Contains, IfOk, IfSome, IsTrue, OnOk, length, map};
ghost use Rattle.std.specs.Prelude.{max, min, replicate, take};
ghost use Rattle.csn_bits.specs.Numbers.{low_bits, number_of};
ghost use Rattle.csn_bits.specs.Octets.{IsBits};
ghost use Rattle.csn_desc.specs.Spelled.{IsSpare, spelled, symbol_bit};
ghost use Rattle.csn_desc.specs.declared.reading.Reading.{Reading as ReadingV};
ghost use Rattle.csn_desc.specs.declared.symbol.Symbol.TheVariants.{Low};

use crate::chart::Chart;
use crate::generator::Generator;
use crate::room::Room;
use crate::span::Span;
use crate::wish::Values;
use csn_bits::{Bits, MOST_BITS, NoMemory, PackedBits};
use csn_desc::{Parts, Reading, Run, Symbol};
use std::alloc::Global;
use thiserror::Error;

/// The most bits that padding, or any bits, have where no length is asked for.
const FEW: u64 = 64;

/// How many bits are packed at once.
const PIECE: usize = 32;

/// Why a draw stopped.
#[derive(Clone, Copy, Debug, Drop, PartialEq, Eq, Error)]
pub(crate) enum Stop {
    /// What it came to is no string, or longer than was asked.
    #[error("no string was drawn")]
    Unlucky,
    #[error("out of memory")]
    NoMemory(#[from] NoMemory),
}

/// Which bits a field gets.
#[derive(Clone, Copy)]
enum Fill {
    Zeros,
    Ones,
    Any,
}

/// How well an alternative suits.
#[derive(Clone, Copy, PartialEq, Eq, PartialOrd, Ord)]
enum Suits {
    Badly,
    Well,
    Best,
}

/// What an alternative is chosen by.
#[derive(Clone, Copy, PartialEq, Eq, PartialOrd, Ord)]
struct Rank {
    suits: Suits,
    shortness: u64,
}

/// The bits that are drawn so far.
#[derive(Drop)]
pub(crate) struct Drawn {
    /// One bit an item.
    bits: Vec<u8>,
    pub generator: Generator,
    values: Values,
    /// The most bits that are drawn.
    most: u64,
}

impl Drawn {
    /// No bits. It takes no memory.
    pub fn new(alloc: Global) -> Drawn
        ensures { result.bits.items ≡ [] }
    {
        Drawn {
            bits: Vec::new(alloc),
            generator: Generator::new(0),
            values: Values::Uniform,
            most: 0,
        }
    }

    /// No bits again. The generator goes on.
    pub fn begin(&mut self, values: Values, most: u32)
        ensures none { self.new.bits.items ≡ [] }
        ensures values { self.new.values ≡ values }
        ensures most { self.new.most ≡ min most MOST_BITS }
        ensures generator { self.new.generator ≡ self.old.generator }
    {
        self.bits.clear();
        self.values = values;
        self.most = u64::from(most.min(MOST_BITS));
    }

    /// How many bits there are.
    pub fn len(&self) -> u64
        ensures { result ≡ length self.now.bits.items }
    {
        self.bits.len() as u64
    }

    /// Only the first so many bits.
    pub fn cut(&mut self, len: u64)
        ensures { self.new.bits.items ≡ take len self.old.bits.items }
    {
        self.bits.truncate(len as usize);
    }

    /// The bits as a block.
    pub fn packed(&self, alloc: Global) -> Result<Bits, NoMemory>
        ensures { IfOk result (λ block. block ≡ map (λ bit. bit % 2) self.now.bits.items) }
    {
        let mut packed = PackedBits::new(alloc);
        for piece in 0..self.bits.len().div_ceil(PIECE) {
            let from = PIECE * piece;
            let to = (from + PIECE).min(self.bits.len());
            packed.add(packed_number(&self.bits[from..to]), (to - from) as u32)?;
        }
        packed.take(alloc)
    }

    /// One more bit.
    fn push(&mut self, bit: u8) -> Result<(), Stop>
        ensures added { OnOk result (self.new.bits.items ≡ self.old.bits.items ++ bit ∷ []) }
        ensures room { OnOk result (length self.old.bits.items < self.old.most) }
    {
        if self.len() >= self.most {
            return Err(Stop::Unlucky);
        }
        if self.bits.push(bit).is_err() {
            return Err(Stop::NoMemory(NoMemory));
        }
        Ok(())
    }

    /// The bit of a symbol where the next bit stands.
    fn bit_of(&self, symbol: Symbol) -> u8
        ensures value { result ≡ symbol_bit symbol (length self.now.bits.items) }
        ensures bit { result ≤ 1 }
    {
        symbol.bit((self.bits.len() % 8) as u32)
    }

    /// Either bit.
    fn any_bit(&mut self) -> u8
        ensures bit { result ≤ 1 }
        ensures kept { self.new.bits.items ≡ self.old.bits.items }
    {
        (self.generator.number() >> 63) as u8
    }

    /// The bits of a literal.
    pub fn literal(&mut self, run: &Run) -> Result<(), Stop>
        ensures { OnOk result (self.new.bits.items ≡ self.old.bits.items ++ spelled run.now (length self.old.bits.items)) }
    {
        for at in 0..run.len() {
            let bit = self.bit_of(*run.get(at));
            self.push(bit)?;
        }
        Ok(())
    }

    /// A spare bit: a receiver takes either.
    pub fn spare(&mut self, symbol: Symbol, reading: Reading) -> Result<(), Stop>
        ensures { OnOk result ((bit : ℕ) × (self.new.bits.items ≡ self.old.bits.items ++ bit ∷ [])
            × IsSpare reading symbol (length self.old.bits.items) (bit ∷ [])) }
    {
        let bit = match reading {
            Reading::Sent => self.bit_of(symbol),
            Reading::Received => self.any_bit(),
        };
        self.push(bit)
    }

    /// Padding, to the end of the room where a length is asked for. A receiver takes any bits.
    pub fn padding(&mut self, reading: Reading, room: Room) -> Result<(), Stop>
        ensures { OnOk result ((added : List ℕ) × (self.new.bits.items ≡ self.old.bits.items ++ added)
            × (0 < length added) × (room.least ≤ length added) × IsSpare reading Low (length self.old.bits.items) added) }
    {
        let as_sent = reading == Reading::Sent || self.generator.one_in(2);
        let count = self.count_in(room).max(1);
        if as_sent {
            self.pattern(count)
        } else {
            self.any_bits(count)
        }
    }

    /// So many bits of the padding pattern.
    fn pattern(&mut self, count: u64) -> Result<(), Stop>
        ensures { OnOk result ((added : List ℕ) × (self.new.bits.items ≡ self.old.bits.items ++ added) × (length added ≡ count)
            × ((reading : ReadingV) → IsSpare reading Low (length self.old.bits.items) added)) }
    {
        for _ in 0..count {
            self.push(self.bit_of(Symbol::Low))?;
        }
        Ok(())
    }

    /// So many bits, each of them either one.
    fn any_bits(&mut self, count: u64) -> Result<(), Stop>
        ensures { OnOk result ((added : List ℕ) × (self.new.bits.items ≡ self.old.bits.items ++ added) × (length added ≡ count) × IsBits added) }
    {
        for _ in 0..count {
            let bit = self.any_bit();
            self.push(bit)?;
        }
        Ok(())
    }

    /// A bit so many times.
    fn same_bits(&mut self, bit: u8, count: u64) -> Result<(), Stop>
        ensures { OnOk result (self.new.bits.items ≡ self.old.bits.items ++ replicate count bit) }
    {
        for _ in 0..count {
            self.push(bit)?;
        }
        Ok(())
    }

    /// Any bits, to the end of the room where a length is asked for.
    pub fn rest(&mut self, room: Room) -> Result<(), Stop>
        ensures { OnOk result ((added : List ℕ) × (self.new.bits.items ≡ self.old.bits.items ++ added) × (room.least ≤ length added) × IsBits added) }
    {
        let width = self.count_in(room);
        self.field(width)
    }

    /// The bits of a field.
    pub fn field(&mut self, width: u64) -> Result<(), Stop>
        ensures { OnOk result ((added : List ℕ) × (self.new.bits.items ≡ self.old.bits.items ++ added) × (length added ≡ width) × IsBits added) }
    {
        match self.fill() {
            Fill::Zeros => self.same_bits(0, width),
            Fill::Ones => self.same_bits(1, width),
            Fill::Any => self.any_bits(width),
        }
    }

    /// The bits of a field of at most 16 bits on which counts are, and the number that they write: mostly one of those that
    /// suit, of which small ones come more often.
    pub fn number(&mut self, width: u64, suits: Span) -> Result<u32, Stop>
        ensures { IfOk result (λ number. (number < 2 ^ min width 16) × (self.new.bits.items ≡ self.old.bits.items ++ low_bits (min width 16) number)) }
    {
        let width = width.min(16) as u32;
        let greatest = (1 << width) - 1;
        let span = if self.generator.one_in(8) {
            Span::NUMBER
        } else {
            suits
        };
        let least = span.least.min(greatest);
        let most = span.most.min(greatest).max(least);
        let number = match self.fill() {
            Fill::Zeros => least,
            Fill::Ones => most,
            Fill::Any => self.number_of(least, most),
        };
        for at in (0..width).rev() {
            self.push(((number >> at) % 2) as u8)?;
        }
        Ok(number as u32)
    }

    /// A number from one to another. Those near the first come more often.
    fn number_of(&mut self, least: u64, most: u64) -> u64
        requires order { least ≤ most }
        requires small { most < 65536 }
        ensures least { least ≤ result }
        ensures most { result ≤ most }
        ensures kept { self.new.bits.items ≡ self.old.bits.items }
    {
        let bits = self.generator.below(17);
        let above = self.generator.below(1 << bits);
        least + above % (most - least + 1)
    }

    /// Which bits the next field gets.
    fn fill(&mut self) -> Fill
        ensures { self.new.bits.items ≡ self.old.bits.items }
    {
        if self.values == Values::Uniform {
            return Fill::Any;
        }
        match self.generator.below(4) {
            0 => Fill::Zeros,
            1 => Fill::Ones,
            _ => Fill::Any,
        }
    }

    /// How many bits a part gets that takes any number of them.
    fn count_in(&mut self, room: Room) -> u64
        ensures least { room.least ≤ result }
        ensures kept { self.new.bits.items ≡ self.old.bits.items }
    {
        let more = room.most.saturating_sub(room.least).min(FEW);
        let few = self.generator.below(more.saturating_add(1).max(1));
        room.least.saturating_add(few)
    }

    /// The alternative of a choice that is drawn: one that is wanted and fits, or else one that fits, or any; where few bits
    /// are wanted one of the shortest of these.
    pub fn alternative(&mut self, chart: &Chart<'_>, parts: &Parts, room: Room) -> Option<u16>
        ensures one { IfSome result (Contains parts.now) }
        ensures kept { self.new.bits.items ≡ self.old.bits.items }
    {
        let mut drawn = None;
        let mut best = Rank {
            suits: Suits::Badly,
            shortness: 0,
        };
        let mut among = 0;
        for at in 0..parts.len() {
            let part = parts.get(at);
            let rank = Rank {
                suits: how_it_suits(chart, part, room),
                shortness: chart.shortness(part),
            };
            if rank > best {
                best = rank;
                among = 0;
            }
            if rank == best {
                among += 1;
                if self.generator.one_in(among) {
                    drawn = Some(part);
                }
            }
        }
        drawn
    }

    /// How many components of a truncation are drawn: as many as fit, and fill the room where a length is asked for, with
    /// those that are wanted, and with no more where few bits are.
    pub fn components(&mut self, chart: &Chart<'_>, parts: &Parts, room: Room) -> u16
        ensures within { result ≤ length parts.now }
        ensures kept { self.new.bits.items ≡ self.old.bits.items }
    {
        let mut total = Span::NONE;
        let mut least = 0;
        let mut most = 0;
        for at in 0..parts.len() {
            let part = parts.get(at);
            if total.most < room.least || chart.wants(part) {
                least = at + 1;
            }
            total = total.and(chart.span(part));
            if total.least <= room.most {
                most = at + 1;
            }
        }
        let least = least.min(most);
        if chart.aim.short {
            return least;
        }
        least + self.generator.below(u64::from(most - least) + 1) as u16
    }

    /// Whether a free repetition has a turn more, behind so many bits of it. It ends one in so many times.
    pub fn goes_on(&mut self, used: u64, room: Room, turn: Span, odds: u64) -> bool
        requires { 0 < odds }
        ensures fits { IsTrue result → max turn.least 1 ≤ room.most - used }
        ensures wanted { max turn.least 1 ≤ room.most - used → used < room.least → IsTrue result }
        ensures kept { self.new.bits.items ≡ self.old.bits.items }
    {
        let left = room.left(used, Span::NONE);
        if turn.least.max(1) > left.most {
            return false;
        }
        left.least > 0 || !self.generator.one_in(odds)
    }
}

/// The number that some bits write.
fn packed_number(bits: &[u8]) -> u64
    requires { length bits.now ≤ PIECE }
    ensures { result ≡ number_of (map (λ bit. bit % 2) bits.now) }
{
    let mut number = 0;
    for at in 0..bits.len() {
        number = 2 * number + u64::from(bits[at] % 2);
    }
    number
}

/// How well an alternative suits.
fn how_it_suits(chart: &Chart<'_>, part: u16, room: Room) -> Suits {
    if !room.takes(chart.span(part)) {
        Suits::Badly
    } else if chart.wants(part) {
        Suits::Best
    } else {
        Suits::Well
    }
}
