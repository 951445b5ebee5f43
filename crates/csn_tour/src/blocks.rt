//! From blocks to trees, and back.

ghost use Rattle.std.specs.Prelude.{◌≡◌, ◌<◌, ◌++◌, [], take, IfOk};
ghost use Rattle.csn_bits.specs.Octets.{bits_of_octets};
ghost use Rattle.csn_desc.specs.Means.{NMeans};
ghost use Rattle.csn_encode.specs.Encoding.{IsBlockOf};

use crate::fault::TourFault;
use csn_bits::{Bits, NoMemory};
use csn_certify::{Plan, Steps};
use csn_decode::{Decoder, Fed};
use csn_desc::Tree;
use csn_encode::encode;
use std::alloc::Global;
use std::marker::Brand;
use std::sync::ledger::{Blank, Ledger};

/// The tree of a block that comes in two pieces of whole octets: csn_decode feeds a judge and grows the tree as it goes.
fn decode<L: Ledger>(
    alloc: Global,
    plan: &Plan,
    first: &[u8; 2],
    second: &[u8; 2],
    blank: Blank,
) -> Result<Tree, TourFault>
    requires name { blank.name ≡ L.name }
    requires parts { blank.parts ≡ L.parts }
    requires some { 0 < blank.parts }
    ensures { IfOk result (NMeans plan.now 0 0 [] (take 16 (bits_of_octets first.now) ++ take 16 (bits_of_octets second.now))) }
{
    let mut steps = Steps::<L>::new(blank);
    let mut decoder = Decoder::new(alloc, plan);
    match decoder.feed(first, 16, &mut steps) {
        Fed::Going => {}
        Fed::Refused { place } => return Err(TourFault::NotFollowed(place)),
        Fed::NoMemory => return Err(TourFault::Memory(NoMemory)),
    }
    match decoder.feed(second, 16, &mut steps) {
        Fed::Going => Ok(decoder.finish(&mut steps)?),
        Fed::Refused { place } => Err(TourFault::NotFollowed(place)),
        Fed::NoMemory => Err(TourFault::Memory(NoMemory)),
    }
}

/// The tree of a block of two pieces.
pub fn tree_of(
    alloc: Global,
    plan: &Plan,
    first: &[u8; 2],
    second: &[u8; 2],
) -> Result<Tree, TourFault>
    ensures { IfOk result (NMeans plan.now 0 0 [] (take 16 (bits_of_octets first.now) ++ take 16 (bits_of_octets second.now))) }
{
    decode::<Brand>(alloc, plan, first, second, Blank::new(1))
}

/// The block that has a tree, by csn_encode.
fn encoded<L: Ledger>(
    alloc: Global,
    plan: &Plan,
    tree: &Tree,
    blank: Blank,
) -> Result<Bits, TourFault>
    requires name { blank.name ≡ L.name }
    requires parts { blank.parts ≡ L.parts }
    requires some { 0 < blank.parts }
    ensures { IfOk result (IsBlockOf plan.now tree.now) }
{
    let mut steps = Steps::<L>::new(blank);
    match encode(alloc, plan, tree, &mut steps) {
        Ok(block) => Ok(block),
        Err(_misfit) => Err(TourFault::Tree),
    }
}

/// The block that has a tree.
pub fn block_of(alloc: Global, plan: &Plan, tree: &Tree) -> Result<Bits, TourFault>
    ensures { IfOk result (IsBlockOf plan.now tree.now) }
{
    encoded::<Brand>(alloc, plan, tree, Blank::new(1))
}
