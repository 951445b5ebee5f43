//! A tour of the library: a description is read and certified, a block is decoded as it comes, its tree is written as
//! text and as JSON and encoded again, and two descriptions are compared.
#![tactic(auto)]

mod blocks;
mod described;
mod fault;

use crate::blocks::{block_of, tree_of};
use crate::described::{is_verified, plan, takes_old_blocks};
use crate::fault::TourFault;
use csn_certify::Plan;
use csn_desc::Tree;
use csn_json::{json_fits, write_json};
use csn_treetext::{fits, write_tree};
use std::process::ExitCode;
use std::str;

/// A description of blocks of 32 bits.
const OLD: &str = "<M> ::= 0 <A : bit (7)> <B : bit (24)> ;";

/// A later one, which has a second kind of block, and leaves room for more in the first.
const NEW: &str = "<M> ::= { 0 <A : bit (7)> <Later : bit (**)> | 1 <C : bit (7)> } ;";

/// Prints bytes of ASCII behind a word.
fn show(rt: &HostRuntime, what: &str, bytes: &[u8]) -> Result<(), TourFault> {
    let Ok(text) = str::from_utf8(bytes) else {
        return Err(TourFault::NoText);
    };
    println!(rt; "{what}: {text}")?;
    Ok(())
}

/// Prints a tree as text, and as JSON.
fn show_tree(rt: &HostRuntime, tree: &Tree) -> Result<(), TourFault> {
    if fits(tree) {
        show(rt, "tree", &write_tree(rt.alloc(), tree)?)?;
    }
    if json_fits(tree) {
        show(rt, "json", &write_json(rt.alloc(), tree)?)?;
    }
    Ok(())
}

/// Shows the tree of a block, and the block of the tree.
fn show_block(rt: &HostRuntime, plan: &Plan) -> Result<(), TourFault> {
    let tree = tree_of(rt.alloc(), plan, &[0x25, 0x2B], &[0x2B, 0x2B])?;
    show_tree(rt, &tree)?;
    let block = block_of(rt.alloc(), plan, &tree)?;
    show(rt, "block", &block.to_hex_line(rt.alloc())?)
}

/// Tells whether each description takes the blocks of the other.
fn compare(rt: &HostRuntime) -> Result<(), TourFault> {
    let later = takes_old_blocks(rt.alloc(), OLD, NEW)?;
    let earlier = takes_old_blocks(rt.alloc(), NEW, OLD)?;
    println!(rt; "the new takes the old: {later}, the old the new: {earlier}")?;
    Ok(())
}

/// Tells whether the certificate of a description is good.
fn verify(rt: &HostRuntime) -> Result<(), TourFault> {
    let verified = is_verified(rt.alloc(), OLD)?;
    println!(rt; "its certificate is good: {verified}")?;
    Ok(())
}

/// Certifies a description, and shows a block by its plan.
fn show_plan(rt: &HostRuntime) -> Result<(), TourFault> {
    let plan = plan(rt.alloc(), OLD)?;
    show_block(rt, &plan)
}

/// Goes through it all.
fn tour(rt: &HostRuntime) -> Result<(), TourFault> {
    show_plan(rt)?;
    compare(rt)?;
    verify(rt)
}

fn main(rt: HostRuntime) -> ExitCode {
    match tour(&rt) {
        Ok(()) => ExitCode::from(0),
        Err(_fault) => ExitCode::from(1),
    }
}
