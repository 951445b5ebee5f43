//! Small changes of a block.

ghost use Rattle.std.specs.Prelude.{◌≡◌, ◌≤◌, [], ◌∷◌, ◌++◌, take, drop, IfOk, OnOk};
ghost use Rattle.csn_sample.specs.Nearly.{changed};
ghost use Rattle.csn_sample.specs.declared.change.Change.TheVariants.{Turned};

use csn_bits::{Bits, BitsFault};
use std::alloc::Global;

/// A small change of a block. Places count bits from 0.
#[derive(Clone, Copy, Debug, PartialEq, Eq)]
pub enum Change {
    /// The bit at a place is turned.
    Turned { at: u32 },
    /// The block ends at a place.
    Cut { at: u32 },
    /// A bit stands behind the end.
    Behind { bit: u8 },
    /// The bits from one place up to another stand twice.
    Twice { from: u32, to: u32 },
}

impl Change {
    /// The block with the change.
    pub fn of(self, alloc: Global, block: &Bits) -> Result<Bits, BitsFault>
        ensures { IfOk result (λ bits. bits ≡ changed self block.now) }
    {
        match self {
            Change::Turned { at } => turned(alloc, block, at),
            Change::Cut { at } => front(alloc, block, at),
            Change::Behind { bit } => {
                let mut bits = front(alloc, block, block.len())?;
                bits.push(bit % 2)?;
                Ok(bits)
            }
            Change::Twice { from, to } => {
                let mut bits = front(alloc, block, to)?;
                add_rest(&mut bits, block, from)?;
                Ok(bits)
            }
        }
    }
}

/// A block with the bit at a place turned, if there is one.
fn turned(alloc: Global, block: &Bits, at: u32) -> Result<Bits, BitsFault>
    ensures { IfOk result (λ bits. bits ≡ changed (Turned at) block.now) }
{
    let mut bits = front(alloc, block, at)?;
    if at < block.len() {
        bits.push(1 - block.get(at))?;
        add_rest(&mut bits, block, at + 1)?;
    }
    Ok(bits)
}

/// The first so many bits of a block.
fn front(alloc: Global, block: &Bits, count: u32) -> Result<Bits, BitsFault>
    ensures { IfOk result (λ bits. bits ≡ take count block.now) }
{
    Bits::from_octets(alloc, block.octets(), count.min(block.len()))
}

/// Adds the bits of a block from a place on.
fn add_rest(bits: &mut Bits, block: &Bits, from: u32) -> Result<(), BitsFault>
    ensures { OnOk result (bits.new ≡ bits.old ++ drop from block.now) }
{
    for at in from..block.len() {
        bits.push(block.get(at))?;
    }
    Ok(())
}
