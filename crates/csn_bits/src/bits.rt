ghost use Rattle.std.specs.Prelude.{◌≡◌, ◌+◌, ◌*◌, ◌/◌, ◌<◌, ◌≤◌, ◌↔◌, [], ◌∷◌, ◌++◌, length, slice_index, take, ◌⊎◌, IfOk, IfErr, OnOk, OnErr, IsErrOf};
ghost use Rattle.std.specs.Option.{ForSome};
ghost use Rattle.csn_bits.specs.Fault.{IsLineFault};
ghost use Rattle.csn_bits.specs.Line.{BlockLine, written};
ghost use Rattle.csn_bits.specs.Numbers.{number_of};
ghost use Rattle.csn_bits.specs.Octets.{IsBits, bits_of_octets, octets_of};

use crate::fault::{BitsFault, NoMemory};
use crate::feed::{HexEnd, HexFeed, HexStep, MOST_LINE, MOST_OCTETS};
use hex::FromHexError;
use std::alloc::Global;
use std::marker::Model;

/// The most bits that a block has: 65,536 octets.
pub const MOST_BITS: u32 = 524_288;

/// A string of bits. A contract sees the list of them, each 0 or 1, at most 524,288.
#[derive(Drop)]
pub struct Bits {
    octets: Vec<u8>,
    len: u32,
}

impl Model for Bits {
    ghost use Rattle.std.specs.Prelude.{List, ℕ, take};
    ghost use Rattle.csn_bits.specs.Octets.{bits_of_octets, IsPacked};

    ghost Value = { List ℕ };

    ghost view = { λ b. take b.len (bits_of_octets b.octets.items) };

    ghost invariant = { λ b. IsPacked b.octets.items b.len };
}

impl Bits {
    /// No bits. It takes no memory.
    pub fn new(alloc: Global) -> Bits
        ensures { result ≡ [] }
    {
        Bits {
            octets: Vec::new(alloc),
            len: 0,
        }
    }

    /// How many bits there are.
    pub fn len(&self) -> u32
        ensures count { result ≡ length self.now }
        ensures within { result ≤ MOST_BITS }
        ensures bits { IsBits self.now }
    {
        self.len
    }

    /// The bit at a place, counted from 0.
    pub fn get(&self, at: u32) -> u8
        requires { at < length self.now }
        ensures value { result ≡ slice_index self.now at }
        ensures bit { result ≤ 1 }
    {
        let octet = self.octets[(at / 8) as usize];
        (octet >> (7 - at % 8)) % 2
    }

    /// Adds a bit at the end. After an error the bits are as they were.
    pub fn push(&mut self, bit: u8) -> Result<(), BitsFault>
        requires { bit ≤ 1 }
        ensures ok { OnOk result (self.new ≡ self.old ++ bit ∷ []) }
        ensures full { IsErrOf result BitsFault.TooManyBits ↔ (length self.old ≡ MOST_BITS) }
        ensures only { IfErr result (λ e. (e ≡ BitsFault.TooManyBits) ⊎ (e ≡ BitsFault.NoMemory)) }
        ensures err { OnErr result (self.new ≡ self.old) }
    {
        if self.len == MOST_BITS {
            return Err(BitsFault::TooManyBits);
        }
        let used = self.len % 8;
        if used == 0 {
            self.octets.push(128 * bit)?;
        } else {
            let last = (self.len / 8) as usize;
            self.octets[last] += bit << (7 - used);
        }
        self.len += 1;
        Ok(())
    }

    /// The first `bits` bits of some octets, the most significant bit of each octet first.
    pub fn from_octets(alloc: Global, octets: &[u8], bits: u32) -> Result<Bits, BitsFault>
        requires { bits ≤ 8 * length octets.now }
        ensures ok { IfOk result (λ b. b ≡ take bits (bits_of_octets octets.now)) }
        ensures many { IsErrOf result BitsFault.TooManyBits ↔ (MOST_BITS < bits) }
        ensures only { IfErr result (λ e. (e ≡ BitsFault.TooManyBits) ⊎ (e ≡ BitsFault.NoMemory)) }
    {
        if bits > MOST_BITS {
            return Err(BitsFault::TooManyBits);
        }
        let whole = (bits / 8) as usize;
        let used = bits % 8;
        if used == 0 {
            let octets = Vec::from_slice(alloc, &octets[..whole])?;
            return Ok(Bits { octets, len: bits });
        }
        let mut packed = Vec::from_slice(alloc, &octets[..whole + 1])?;
        packed[whole] = packed[whole] >> (8 - used) << (8 - used);
        Ok(Bits {
            octets: packed,
            len: bits,
        })
    }

    /// The bits that a block line spells, as [`to_hex_line`](Bits::to_hex_line) writes it, with
    /// digits in either case. The line is without its line feed. Of several faults the first in the
    /// order of [`BitsFault`] is told.
    pub fn from_hex_line(alloc: Global, line: &[u8]) -> Result<Bits, BitsFault>
        requires { length line.now ≤ MOST_LINE }
        ensures ok { IfOk result (λ b. BlockLine line.now b) }
        ensures refused { IfErr result (λ e. (e ≡ BitsFault.NoMemory) ⊎ IsLineFault line.now e) }
    {
        match Bits::from_whole_octets(alloc, line)? {
            Some(bits) => Ok(bits),
            None => Bits::from_digits(alloc, line),
        }
    }

    // The bits of a line of digits alone, two for each octet of a block, and None for any other line.
    fn from_whole_octets(alloc: Global, line: &[u8]) -> Result<Option<Bits>, BitsFault>
        ensures ok { IfOk result (λ read. ForSome read (λ b. BlockLine line.now b)) }
        ensures refused { IfErr result (λ e. e ≡ BitsFault.NoMemory) }
    {
        if line.is_empty() || line.len() > 2 * MOST_OCTETS as usize {
            return Ok(None);
        }
        match hex::decode(alloc, line) {
            Ok(octets) => {
                let len = 8 * octets.len() as u32;
                Ok(Some(Bits { octets, len }))
            }
            Err(FromHexError::OutOfMemory) => Err(BitsFault::NoMemory),
            _ => Ok(None),
        }
    }

    // The bits that a block line spells, digit by digit.
    fn from_digits(alloc: Global, line: &[u8]) -> Result<Bits, BitsFault>
        requires { length line.now ≤ MOST_LINE }
        ensures ok { IfOk result (λ b. BlockLine line.now b) }
        ensures refused { IfErr result (λ e. (e ≡ BitsFault.NoMemory) ⊎ IsLineFault line.now e) }
    {
        let mut octets = Vec::with_capacity(alloc, (line.len() / 2).min(MOST_OCTETS as usize))?;
        let mut feed = HexFeed::new();
        for &byte in line {
            if let HexStep::Octet(octet) = feed.byte(byte) {
                octets.push(octet)?;
            }
        }
        match feed.finish() {
            HexEnd::Empty => Ok(Bits::new(alloc)),
            HexEnd::Last { octet, bits } => {
                let len = 8 * octets.len() as u32 + bits as u32;
                octets.push(octet)?;
                Ok(Bits { octets, len })
            }
            HexEnd::Fault(why) => Err(why.into()),
        }
    }

    /// The block line of the bits: `.` for none, else two digits in upper case for each octet and,
    /// where only the first n bits of the last octet belong to the block, `/n`.
    pub fn to_hex_line(&self, alloc: Global) -> Result<Vec<u8>, NoMemory>
        ensures { IfOk result (λ line. line.items ≡ written self.now) }
    {
        if self.len == 0 {
            return Ok(Vec::from_slice(alloc, b".")?);
        }
        let mut line = hex::encode_upper(alloc, self.octets.as_slice())?.into_bytes();
        let used = (self.len % 8) as u8;
        if used > 0 {
            line.push(b'/')?;
            line.push(b'0' + used)?;
        }
        Ok(line)
    }

    /// The same bits once more.
    pub fn copy(&self, alloc: Global) -> Result<Bits, NoMemory>
        ensures { IfOk result (λ b. b ≡ self.now) }
    {
        Ok(Bits {
            octets: Vec::from_slice(alloc, &self.octets)?,
            len: self.len,
        })
    }

    /// The number that at most 64 bits write, the first of them most significant.
    pub fn number(&self) -> u64
        requires { length self.now ≤ 64 }
        ensures { result ≡ number_of self.now }
    {
        let octets = self.octets();
        octets_number(octets) >> (8 * octets.len() as u32 - self.len)
    }

    /// The octets that hold the bits, eight to an octet, the first bit of each octet its most
    /// significant one. In the last octet what is unused is 0.
    pub fn octets(&self) -> &[u8]
        ensures exact { result.now ≡ octets_of self.now }
        ensures count { length result.now ≡ (length self.now + 7) / 8 }
        ensures bits { take (length self.now) (bits_of_octets result.now) ≡ self.now }
    {
        &self.octets
    }
}

// The number that the bits of at most eight octets write.
fn octets_number(octets: &[u8]) -> u64
    requires { length octets.now ≤ 8 }
    ensures { result ≡ number_of (bits_of_octets octets.now) }
{
    let mut number = 0;
    for &octet in octets {
        number = 256 * number + u64::from(octet);
    }
    number
}
