ghost use Rattle.std.specs.Prelude.{◌≡◌, ◌+◌, ◌<◌, ◌≤◌, [], ◌∷◌, ◌++◌, length, slice_index, IfOk, OnOk, OnErr};
ghost use Rattle.csn_bits.specs.Octets.{most_bits};
ghost use Rattle.csn_bits.specs.Numbers.{low_bits};

use crate::bits::{Bits, MOST_BITS};
use crate::fault::NoMemory;
use std::alloc::Global;
use std::marker::Model;

/// The most bits of a number that are added at once.
pub const MOST_ADDED: u32 = 56;

/// Bits that are added one leaf after another, at most as many as a block has. The room that they take is kept
/// when they are handed over. A contract sees the list of them.
#[derive(Drop)]
pub struct PackedBits {
    octets: Vec<u8>,
    /// The bits behind the last whole octet, as the last bits of a number, and how many there are.
    last: u8,
    held: u32,
}

impl Model for PackedBits {
    ghost use Rattle.std.specs.Prelude.{List, ℕ};
    ghost use Rattle.csn_bits.specs.Packed.{packed_bits, IsPackedBits};

    ghost Value = { List ℕ };

    ghost view = { packed_bits };

    ghost invariant = { IsPackedBits };
}

impl PackedBits {
    /// No bits. It takes no memory.
    pub fn new(alloc: Global) -> PackedBits
        ensures { result ≡ [] }
    {
        PackedBits {
            octets: Vec::new(alloc),
            last: 0,
            held: 0,
        }
    }

    /// How many bits there are.
    pub fn len(&self) -> u32
        ensures count { result ≡ length self.now }
        ensures within { result ≤ MOST_BITS }
    {
        8 * self.octets.len() as u32 + self.held
    }

    /// The bit at a place, counted from 0.
    pub fn get(&self, at: u32) -> u8
        requires { at < length self.now }
        ensures value { result ≡ slice_index self.now at }
        ensures bit { result ≤ 1 }
    {
        let octet = (at / 8) as usize;
        if octet < self.octets.len() {
            let whole = self.octets[octet];
            return (whole >> (7 - at % 8)) % 2;
        }
        let behind = self.held - at % 8 - 1;
        (self.last >> behind) % 2
    }

    /// Adds the last `count` bits of a number at the end, where a block has room for them. After an error nothing is said
    /// of the bits.
    pub fn add(&mut self, number: u64, count: u32) -> Result<(), NoMemory>
        requires { count ≤ MOST_ADDED }
        ensures ok { OnOk result (self.new ≡ self.old ++ low_bits count number) }
        ensures some { OnErr result (0 < count) }
    {
        if count > MOST_BITS - self.len() {
            return Err(NoMemory);
        }
        let more = number % (1 << count);
        let bits = u64::from(self.last) << count | more;
        let mut left = self.held + count;
        while left >= 8 {
            left -= 8;
            self.octets.push(((bits >> left) % 256) as u8)?;
        }
        self.last = (bits % 256) as u8;
        self.held = left;
        Ok(())
    }

    /// Adds a bit at the end. After an error nothing is said of the bits.
    pub fn push(&mut self, bit: u8) -> Result<(), NoMemory>
        requires bit { bit ≤ 1 }
        requires room { length self.old < most_bits }
        ensures { OnOk result (self.new ≡ self.old ++ bit ∷ []) }
    {
        self.add(u64::from(bit), 1)
    }

    /// Adds the bits of a leaf at the end. After an error nothing is said of the bits.
    pub fn append(&mut self, leaf: &Bits) -> Result<(), NoMemory>
        requires { length self.old + length leaf.now ≤ most_bits }
        ensures { OnOk result (self.new ≡ self.old ++ leaf.now) }
    {
        let octets = leaf.octets();
        let whole = (leaf.len() / 8) as usize;
        let few = leaf.len() % 8;
        for at in 0..whole {
            let octet = octets[at];
            self.add(u64::from(octet), 8)?;
        }
        if few > 0 {
            let last = octets[whole];
            self.add(u64::from(last >> (8 - few)), few)?;
        }
        Ok(())
    }

    /// Hands the bits over, and keeps none.
    pub fn take(&mut self, alloc: Global) -> Result<Bits, NoMemory>
        ensures bits { IfOk result (λ bits. bits ≡ self.old) }
        ensures none { OnOk result (self.new ≡ []) }
    {
        let len = 8 * self.octets.len() as u32 + self.held;
        let last = u64::from(self.last) << (8 - self.held);
        self.octets.push((last % 256) as u8)?;
        let bits = Bits::from_octets(alloc, self.octets.as_slice(), len);
        self.octets.clear();
        self.held = 0;
        let Ok(bits) = bits else {
            return Err(NoMemory);
        };
        Ok(bits)
    }
}
