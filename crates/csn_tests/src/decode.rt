//! Blocks of more bits than a number of the machine has, through the decoder.

ghost use Rattle.std.specs.Prelude.{◌≡◌, ◌<◌};

use crate::texts::{pieces_of, plan_of};
use csn_bits::{Bits, MOST_BITS};
use csn_certify::{Plan, Steps};
use csn_decode::Decoder;
use csn_desc::Tree;
use csn_treetext::{fits, write_tree};
use std::alloc::Global;
use std::marker::Brand;
use std::sync::ledger::{Blank, Ledger};
use std::test::Fail;

/// A field of 80 bits, a bit, and a field of 70.
const LONG: &str = "<M> ::= <A : octet (10)> 0 <B : bit (70)> ;";

/// A block of it, whole, and in pieces of 3, 65 and 83 bits.
const PIECES: &[&[&str]] = &[
    &["0123456789ABCDEF55AA155555555555555556/7"],
    &["00/3", "091A2B3C4D5E6F7A80/1", "5AA1555555555555555560/3"],
];

/// The tree of it, as the definitions say outside this repository.
const TREE: &str = "[<A>=x0123456789ABCDEF55AA . <B>=x2AAAAAAAAAAAAAAAAC/6]";

/// The tree of a block that comes in these pieces.
fn decoded<L: Ledger>(
    alloc: Global,
    plan: &Plan,
    pieces: &[Bits],
    blank: Blank,
) -> Result<Tree, Fail>
    requires name { blank.name ≡ L.name }
    requires parts { blank.parts ≡ L.parts }
    requires some { 0 < blank.parts }
{
    let mut steps = Steps::<L>::new(blank);
    let mut decoder = Decoder::new(alloc, plan);
    for piece in pieces {
        if decoder.seen() > MOST_BITS - piece.len() {
            return Err("too many bits".into());
        }
        // behind a refusal a piece changes nothing
        let _fed = decoder.feed(piece.octets(), piece.len(), &mut steps);
    }
    Ok(decoder.finish(&mut steps)?)
}

/// The same as text, by steps of its own.
fn text_of(alloc: Global, plan: &Plan, pieces: &[Bits]) -> Result<Vec<u8>, Fail> {
    let tree = decoded::<Brand>(alloc, plan, pieces, Blank::new(1))?;
    if !fits(&tree) {
        return Err("it does not fit".into());
    }
    Ok(write_tree(alloc, &tree)?)
}

#[test]
fn a_long_block_is_decoded_in_any_pieces(rt: HostRuntime) -> Result<(), Fail> {
    let plan = plan_of(rt.alloc(), LONG)?;
    for lines in PIECES {
        let pieces = pieces_of(rt.alloc(), lines)?;
        let text = text_of(rt.alloc(), &plan, &pieces)?;
        assert_eq!(rt; text.as_slice(), TREE.as_bytes());
    }
    Ok(())
}
