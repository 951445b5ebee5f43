//! Whether one node takes another.

ghost use Rattle.std.specs.Prelude.{◌≡◌, ◌↔◌, ◌<◌, ◌≤◌, ◌⊎◌, ℕ, suc, false, IsTrue, length, take, slice_get, Some};
ghost use Rattle.csn_desc.specs.Formed.{IsDescription};
ghost use Rattle.csn_desc.specs.declared.node.Node.TheVariants.{Seq, Choice};
ghost use Rattle.csn_compat.specs.Takes.{is_label_or_choice, is_label_or_rest, IsAnyBits, Takes, NodeTakes, PartsTake};
ghost use Rattle.csn_compat.specs.Places.{pairs_behind, FirstTaken, LastTaken, AreShown, HasRoom};

use crate::leaf::leaf_is_taken;
use crate::pairs::{Pairs, counts_agree, keep};
use csn_desc::{Desc, Node, Parts};

/// Whether node `j` of the new description takes node `i` of the old one, where these fields are pairs.
#[cycle(takes)]
pub(crate) fn takes(was: &Desc, now: &Desc, i: u16, j: u16, pairs: &mut Pairs) -> bool
    requires old { IsDescription was.now }
    requires new { IsDescription now.now }
    requires room { HasRoom was.now.nodes pairs.old.items i }
    requires within { j < length now.now.nodes }
    ensures takes { IsTrue result ↔ Takes was.now now.now i j pairs.old.items }
    ensures kept { pairs.new.items ≡ pairs.old.items }
{
    let old = was.node(i);
    let new = now.node(j);
    if let Node::Named { part, .. } = old {
        return takes(was, now, *part, j, pairs);
    }
    if let Node::Named { part, .. } = new {
        return takes(was, now, i, *part, pairs);
    }
    if let Node::Rest = new {
        return true;
    }
    if let Node::Choice(parts) = old {
        return each_is_taken(was, now, i, j, parts, pairs);
    }
    if let Node::Choice(others) = new {
        return some_takes(was, now, i, j, others, pairs);
    }
    kind_is_taken(was, now, i, old, new, pairs)
}

/// Whether the new node takes the old one `i`, where its kind decides: neither is labelled or a choice, and the new
/// one is not any bits.
#[cycle(takes)]
fn kind_is_taken(was: &Desc, now: &Desc, i: u16, old: &Node, new: &Node, pairs: &mut Pairs) -> bool
    requires was { IsDescription was.now }
    requires now { IsDescription now.now }
    requires room { HasRoom was.now.nodes pairs.old.items i }
    requires old { slice_get was.now.nodes i ≡ Some old.now }
    requires new { (j : ℕ) × (slice_get now.now.nodes j ≡ Some new.now) }
    requires old_kind { is_label_or_choice old.now ≡ false }
    requires new_kind { (is_label_or_rest new.now ≡ false) × (is_label_or_choice new.now ≡ false) }
    ensures takes { (j : ℕ) → IsTrue result ↔ NodeTakes was.now now.now i old.now j new.now pairs.old.items }
    ensures kept { pairs.new.items ≡ pairs.old.items }
{
    match (old, new) {
        (Node::Seq(parts), Node::Seq(others)) => {
            sequence_is_taken(was, now, i, parts, others, pairs)
        }
        (Node::Trunc(parts), Node::Trunc(others)) => {
            if parts.len() > others.len() {
                return false;
            }
            let before = pairs.len();
            let taken = first_are_taken(was, now, i, parts, others, parts.len(), pairs);
            pairs.truncate(before);
            taken
        }
        (Node::Many(part), Node::Many(other)) => takes(was, now, *part, *other, pairs),
        (
            Node::Times { count, part },
            Node::Times {
                count: taker,
                part: other,
            },
        ) => { counts_agree(pairs, 1, count, 1, taker) && takes(was, now, *part, *other, pairs) }
        (
            Node::Window { unit, count, part },
            Node::Window {
                unit: units,
                count: taker,
                part: other,
            },
        ) => {
            counts_agree(pairs, *unit, count, *units, taker)
                && takes(was, now, *part, *other, pairs)
        }
        _ => leaf_is_taken(pairs, old, new),
    }
}

/// Whether node `j` takes each alternative of the old choice `i`.
#[cycle(takes)]
fn each_is_taken(was: &Desc, now: &Desc, i: u16, j: u16, parts: &Parts, pairs: &mut Pairs) -> bool
    requires old { IsDescription was.now }
    requires new { IsDescription now.now }
    requires room { HasRoom was.now.nodes pairs.old.items i }
    requires within { j < length now.now.nodes }
    requires parts { slice_get was.now.nodes i ≡ Some (Choice parts.now) }
    ensures each { IsTrue result ↔ ((k p : ℕ) → slice_get parts.now k ≡ Some p → Takes was.now now.now p j pairs.old.items) }
    ensures kept { pairs.new.items ≡ pairs.old.items }
{
    for at in 0..parts.len() {
        if !takes(was, now, parts.get(at), j, pairs) {
            return false;
        }
    }
    true
}

/// Whether some alternative of the new choice `j` takes node `i`.
#[cycle(takes)]
fn some_takes(was: &Desc, now: &Desc, i: u16, j: u16, others: &Parts, pairs: &mut Pairs) -> bool
    requires old { IsDescription was.now }
    requires new { IsDescription now.now }
    requires room { HasRoom was.now.nodes pairs.old.items i }
    requires others { slice_get now.now.nodes j ≡ Some (Choice others.now) }
    ensures some { IsTrue result ↔ ((k : ℕ) × (q : ℕ) × (slice_get others.now k ≡ Some q) × Takes was.now now.now i q pairs.old.items) }
    ensures kept { pairs.new.items ≡ pairs.old.items }
{
    for at in 0..others.len() {
        if takes(was, now, i, others.get(at), pairs) {
            return true;
        }
    }
    false
}

/// Whether the parts of a new sequence take those of the old one `i`: each the one at its place, or the last of them,
/// where it is any bits, all from its place on.
#[cycle(takes)]
fn sequence_is_taken(
    was: &Desc,
    now: &Desc,
    i: u16,
    parts: &Parts,
    others: &Parts,
    pairs: &mut Pairs,
) -> bool
    requires old { IsDescription was.now }
    requires new { IsDescription now.now }
    requires room { HasRoom was.now.nodes pairs.old.items i }
    requires parts { slice_get was.now.nodes i ≡ Some (Seq parts.now) }
    requires others { (j : ℕ) × (slice_get now.now.nodes j ≡ Some (Seq others.now)) }
    ensures takes { IsTrue result ↔ PartsTake was.now now.now parts.now others.now pairs.old.items }
    ensures kept { pairs.new.items ≡ pairs.old.items }
{
    if others.len() > parts.len() {
        return false;
    }
    let before = pairs.len();
    let taken = first_are_taken(was, now, i, parts, others, others.len() - 1, pairs)
        && last_is_taken(was, now, i, parts, others, pairs);
    pairs.truncate(before);
    taken
}

/// Whether the first `count` parts of node `i` are taken by those at their places. Pairs are kept on the way.
#[cycle(takes)]
fn first_are_taken(
    was: &Desc,
    now: &Desc,
    i: u16,
    parts: &Parts,
    others: &Parts,
    count: u16,
    pairs: &mut Pairs,
) -> bool
    requires old { IsDescription was.now }
    requires new { IsDescription now.now }
    requires room { HasRoom was.now.nodes pairs.old.items i }
    requires parts { AreShown was.now.nodes i parts.now }
    requires others { (j : ℕ) × AreShown now.now.nodes j others.now }
    requires count { (count ≤ length parts.now) × (count ≤ length others.now) }
    ensures takes { IsTrue result ↔ FirstTaken was.now now.now parts.now others.now pairs.old.items count }
    ensures pairs { IsTrue result → pairs.new.items ≡ pairs_behind was.now now.now parts.now others.now pairs.old.items count }
    ensures kept { take (length pairs.old.items) pairs.new.items ≡ pairs.old.items }
{
    for at in 0..count {
        let part = parts.get(at);
        let other = others.get(at);
        if !takes(was, now, part, other, pairs) {
            return false;
        }
        keep(was, now, part, other, pairs);
    }
    true
}

/// Whether the last new part takes the old ones from its place on: it is any bits, or stands at the place of the last
/// old part and takes it.
#[cycle(takes)]
fn last_is_taken(
    was: &Desc,
    now: &Desc,
    i: u16,
    parts: &Parts,
    others: &Parts,
    pairs: &mut Pairs,
) -> bool
    requires old { IsDescription was.now }
    requires new { IsDescription now.now }
    requires parts { AreShown was.now.nodes i parts.now }
    requires others { (j : ℕ) × AreShown now.now.nodes j others.now }
    requires some { 1 ≤ length others.now }
    requires few { length others.now ≤ length parts.now }
    requires room { (k p : ℕ) → suc k ≡ length others.now → slice_get parts.now k ≡ Some p → HasRoom was.now.nodes pairs.old.items p }
    ensures takes { IsTrue result ↔ LastTaken was.now now.now parts.now others.now pairs.old.items }
    ensures kept { pairs.new.items ≡ pairs.old.items }
{
    let last = others.len() - 1;
    let other = others.get(last);
    if is_any_bits(now, other) {
        return true;
    }
    parts.len() == others.len() && takes(was, now, parts.get(last), other, pairs)
}

/// Whether the node is any bits, without its labels.
fn is_any_bits(desc: &Desc, j: u16) -> bool
    requires description { IsDescription desc.now }
    requires within { j < length desc.now.nodes }
    ensures { IsTrue result ↔ IsAnyBits desc.now j }
{
    match desc.node(j) {
        Node::Rest => true,
        Node::Named { part, .. } => is_any_bits(desc, *part),
        _ => false,
    }
}
