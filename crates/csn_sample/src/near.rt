//! Blocks that are nearly strings.

ghost use Rattle.std.specs.Prelude.{◌≡◌, All, IfOk, IfSome};
ghost use Rattle.csn_sample.specs.Nearly.{IsNear};

use crate::change::Change;
use crate::spots::{Kind, Spot, spots};
use crate::tries::Tries;
use csn_bits::{Bits, BitsFault, NoMemory};
use csn_certify::{Plan, Steps};
use csn_judge::{Judged, judge_block};
use std::alloc::Global;
use std::sync::ledger::Ledger;

/// A block that is no string, made of another by a small change.
#[derive(Drop)]
pub struct Near {
    pub change: Change,
    /// The node where the change was made, or the root where it is a bit behind the end.
    pub node: u16,
    pub block: Bits,
    /// How many of its bits can be followed.
    pub place: u32,
}

/// The blocks that are refused of those that small changes of a block make: each literal with its first bit turned, and
/// so each spare part, the block cut where each field begins, each last turn of a repetition by number told twice, and a
/// bit more behind the end. A change that makes another string is left out. At a node a kind of change is tried a few times
/// at most, in all calls with the same tries, and not after a block was refused; so many blocks are judged at most.
pub fn nearly<L: Ledger>(
    alloc: Global,
    plan: &Plan,
    block: &Bits,
    tries: &mut Tries,
    steps: &mut Steps<L>,
) -> Result<Vec<Near>, NoMemory>
    ensures { IfOk result (λ told. All (IsNear plan.now block.now) told.items) }
{
    let spots = spots(alloc, plan, block, steps)?;
    let mut told = Vec::new(alloc);
    for spot in &spots {
        add(
            alloc,
            plan,
            block,
            spot.node,
            change_at(spot),
            tries,
            &mut told,
        )?;
    }
    for bit in 0..2 {
        let change = Change::Behind { bit };
        add(alloc, plan, block, 0, change, tries, &mut told)?;
    }
    Ok(told)
}

/// The change that is made at a spot.
fn change_at(spot: &Spot) -> Change {
    match spot.kind {
        Kind::Literal | Kind::Spare => Change::Turned { at: spot.from },
        Kind::Field => Change::Cut { at: spot.from },
        Kind::LastTurn => Change::Twice {
            from: spot.from,
            to: spot.to,
        },
    }
}

/// Adds what a change makes of a block, where it may be tried and is refused.
fn add(
    alloc: Global,
    plan: &Plan,
    block: &Bits,
    node: u16,
    change: Change,
    tries: &mut Tries,
    told: &mut Vec<Near>,
) -> Result<(), NoMemory>
    requires { All (IsNear plan.now block.now) told.old.items }
    ensures { All (IsNear plan.now block.now) told.new.items }
{
    if !tries.take(node, change) {
        return Ok(());
    }
    if let Some(near) = refused(alloc, plan, block, node, change)? {
        tries.end(node, change);
        told.push(near)?;
    }
    Ok(())
}

/// What a change makes of a block, where it is refused.
fn refused(
    alloc: Global,
    plan: &Plan,
    block: &Bits,
    node: u16,
    change: Change,
) -> Result<Option<Near>, NoMemory>
    ensures { IfOk result (λ found. IfSome found (IsNear plan.now block.now)) }
{
    let made = match change.of(alloc, block) {
        Ok(made) => made,
        Err(BitsFault::TooManyBits) => return Ok(None),
        Err(_) => return Err(NoMemory),
    };
    match judge_block(plan, &made) {
        Judged::Ok => Ok(None),
        Judged::Refused { place } => Ok(Some(Near {
            change,
            node,
            block: made,
            place,
        })),
    }
}
