//! Leaves of bits.

ghost use Rattle.std.specs.Prelude.{◌≡◌, ◌<◌, ◌≤◌, ◌*◌, ◌++◌, ◌∷◌, [], length, take, IfOk, OnOk};
ghost use Rattle.csn_treetext.specs.declared.bounds.TheConstants.{MOST_SHORT, MOST_OCTETS};
ghost use Rattle.csn_bits.specs.declared.bits.TheConstants.{MOST_BITS};
ghost use Rattle.csn_desc.specs.TreeV.{bits};
ghost use Rattle.csn_bits.specs.Numbers.{low_bits};
ghost use Rattle.csn_bits.specs.Octets.{bits_of_octets};
ghost use Rattle.csn_treetext.specs.Text.{is_short};
ghost use Rattle.csn_treetext.specs.reader.Machine.{cut_octets, last_octet};

use crate::bounds::MOST_SHORT;
use csn_bits::{Bits, BitsFault, NoMemory};
use csn_desc::{Shape, Tree};
use std::alloc::Global;

/// A leaf alone.
pub fn leaf(of: Bits) -> Tree
    ensures { result ≡ bits of }
{
    Tree {
        shape: Shape::Bits(of),
    }
}

/// Whether the bits are written as a number.
pub fn is_short(bits: &Bits) -> bool
    ensures { result ≡ is_short bits.now }
{
    bits.len() >= 1 && bits.len() <= MOST_SHORT
}

// The leaf of the first bits of some octets.
fn first_bits(alloc: Global, octets: &[u8], len: u32) -> Result<Tree, NoMemory>
    requires within { len ≤ 8 * length octets.now }
    requires few { len ≤ MOST_BITS }
    ensures { IfOk result (λ tree. tree ≡ bits (take len (bits_of_octets octets.now))) }
{
    match Bits::from_octets(alloc, octets, len) {
        Ok(of) => Ok(leaf(of)),
        Err(BitsFault::NoMemory) => Err(NoMemory),
        Err(_) => unreachable!(),
    }
}

/// The leaf of so many bits that writes a number.
pub fn number_leaf(alloc: Global, width: u8, number: u64) -> Result<Tree, NoMemory>
    requires some { 1 ≤ width }
    requires few { width ≤ MOST_SHORT }
    ensures { IfOk result (λ tree. tree ≡ bits (low_bits width number)) }
{
    let width = u32::from(width);
    let octets = (number << (MOST_SHORT - width)).to_be_bytes();
    first_bits(alloc, &octets, width)
}

/// Adds a bit to bits that are not as many as a block has.
pub fn push_bit(leaf: &mut Bits, bit: u8) -> Result<(), NoMemory>
    requires bit { bit ≤ 1 }
    requires room { length leaf.old < MOST_BITS }
    ensures { OnOk result (leaf.new ≡ leaf.old ++ bit ∷ []) }
{
    match leaf.push(bit) {
        Ok(()) => Ok(()),
        Err(BitsFault::NoMemory) => Err(NoMemory),
        Err(_) => unreachable!(),
    }
}

/// The leaf of octets of whose last one the first `used` bits belong to it.
pub fn octets_leaf(alloc: Global, octets: &[u8], used: u8) -> Result<Tree, NoMemory>
    requires some { 1 ≤ length octets.now }
    requires few { length octets.now ≤ MOST_OCTETS }
    requires used { used ≤ 8 }
    ensures { IfOk result (λ tree. tree ≡ cut_octets octets.now used) }
{
    let len = 8 * octets.len() as u32 - 8 + u32::from(used);
    first_bits(alloc, octets, len)
}

/// The last of some octets; 0 where there are none.
pub fn last_octet(octets: &[u8]) -> u8
    ensures { result ≡ last_octet octets.now }
{
    match octets.last() {
        Some(last) => *last,
        None => 0,
    }
}
