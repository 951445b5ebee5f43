ghost use Rattle.std.specs.Prelude.{◌≡◌, ℕ, ◌<◌, length, slice_get, Some, IfOk};
ghost use Rattle.csn_desc.specs.Nodes.{DescV, parts_of};
ghost use Rattle.csn_desc.specs.Formed.{IsDescription};
ghost use Rattle.csn_look.specs.NodeSets.{IsLookOf};
ghost use Rattle.csn_look.specs.Steps.{HandsTo, HasRight, AreRight, KeepsOthers};

use crate::look::Look;
use csn_bits::NoMemory;
use csn_desc::{Desc, Node, Parts};
use std::alloc::Global;

/// What a node hands down to its parts, so that what the root has tells what every node has.
pub(crate) trait HandDown: Copy {
    /// Which of them is right for which node of a description.
    ghost is_right: { DescV → ℕ → Self → Type 0 };

    /// Writes to a table what the parts of a node have, from what the node has.
    fn hand_down(look: &Look, node: &Node, above: Self, table: &mut [Self])
        requires { HandsTo node.now (length table.old) (length look.now.sets) }
        ensures parts { (d : DescV) (k : ℕ) → IsDescription d → IsLookOf d look.now.sets → slice_get d.nodes k ≡ Some
            node.now → is_right d k above → (j p : ℕ) → slice_get (parts_of node.now) j ≡ Some p
            → HasRight (is_right d) table.new p }
        ensures others { KeepsOthers node.now table.old table.new };
}

/// What each node of a description has, from what the root has. The nodes are gone through once, the root first.
pub(crate) fn handed_down<T: HandDown>(
    alloc: Global,
    desc: &Desc,
    look: &Look,
    root: T,
) -> Result<Vec<T>, NoMemory>
    requires known { IsLookOf desc.now look.now.sets }
    requires root { IsDescription desc.now → T.is_right desc.now 0 root }
    ensures { IfOk result (λ table. AreRight (T.is_right desc.now) (length desc.now.nodes) table.items) }
{
    let count = desc.len();
    let mut table = alike(alloc, root, count)?;
    table[0] = root;
    for k in 0..count {
        let above = table[k as usize];
        T::hand_down(look, desc.node(k), above, table.as_mut_slice());
    }
    Ok(table)
}

/// As many of them as there are nodes.
fn alike<T: Copy>(alloc: Global, one: T, count: u16) -> Result<Vec<T>, NoMemory>
    ensures { IfOk result (λ table. length table.items ≡ count) }
{
    match vec![in alloc; one; count as usize] {
        Ok(table) => Ok(table),
        Err(_) => Err(NoMemory),
    }
}

/// The same for each of some parts.
pub(crate) fn hand_to_each<T: Copy>(parts: &Parts, one: T, table: &mut [T])
    requires below { (j p : ℕ) → slice_get parts.now j ≡ Some p → p < length table.old }
    ensures parts { (j p : ℕ) → slice_get parts.now j ≡ Some p → slice_get table.new p ≡ Some one }
    ensures others { (i : ℕ) → ((j : ℕ) → slice_get parts.now j ≡ Some i → ⊥) → slice_get table.new i ≡ slice_get table.old i }
{
    for at in 0..parts.len() {
        table[parts.get(at) as usize] = one;
    }
}
