//! Whether a certificate is good for a description.

ghost use Rattle.std.specs.Prelude.{◌≡◌, ◌≤◌, ◌<◌, ◌↔◌, ℕ, List, [], length, slice_get, Some, IfOk, IfSome, IfNone};
ghost use Rattle.csn_desc.specs.TreeV.{TreeV};
ghost use Rattle.csn_desc.specs.Nodes.{DescV};
ghost use Rattle.csn_good.specs.Good.{Good, FirstFault, KeepsRules};
ghost use Rattle.csn_desc.specs.Means.{NMeans};
ghost use Rattle.csn_cert.specs.CertificateV.{IsCertificate};
ghost use Rattle.csn_good.specs.Octets.{NodeWithin};
ghost use Rattle.csn_good.specs.Faults.{FaultAt};

use crate::apart::keeps_apart;
use crate::following::keeps_follow;
use crate::keys::keeps_keys;
use crate::laws::good_leaves_one_tree;
use crate::reaching::keeps_reached;
use crate::sets::{keeps_ends, keeps_nullable, keeps_start};
use csn_bits::NoMemory;
use csn_cert::Certificate;
use csn_desc::{Desc, Node};
use std::alloc::Global;

/// What a certificate comes to.
#[derive(Clone, Copy, Debug, PartialEq, Eq)]
pub enum Checked {
    /// It is good.
    Proved,
    /// The rule is broken at the node: the least node, and the least rule there.
    Unproved { rule: u8, node: u16 },
}

/// The least rule that node `i` breaks.
fn broken_rule(
    alloc: Global,
    desc: &Desc,
    c: &Certificate,
    i: u16,
    node: &Node,
) -> Result<Option<u8>, NoMemory>
    requires certificate { IsCertificate c.now }
    requires number { length c.now ≡ length desc.now.nodes }
    requires node { slice_get desc.now.nodes i ≡ Some node.now }
    requires within { i < length c.now }
    requires parts { NodeWithin node.now (length c.now) }
    ensures some { IfOk result (λ broken. IfSome broken (FaultAt desc.now c.now i)) }
    ensures none { IfOk result (λ broken. IfNone broken (KeepsRules desc.now c.now i node.now)) }
{
    if !keeps_nullable(c, i, node) {
        return Ok(Some(2));
    }
    if !keeps_ends(desc, c, i, node) {
        return Ok(Some(3));
    }
    if !keeps_start(desc, c, i, node) {
        return Ok(Some(4));
    }
    if !keeps_keys(alloc, desc, c, i, node)? {
        return Ok(Some(5));
    }
    if !keeps_reached(c, i, node) {
        return Ok(Some(6));
    }
    if !keeps_follow(c, i, node) {
        return Ok(Some(7));
    }
    if !keeps_apart(alloc, desc, c, i, node)? {
        return Ok(Some(8));
    }
    Ok(None)
}

/// Checks a certificate, node by node. It takes at most some steps in proportion to the number of patterns that it
/// has, times the number of patterns that there are; memory for the patterns that the equation of one node makes, or
/// for those of two alternatives.
pub fn check_certificate(alloc: Global, desc: &Desc, c: &Certificate) -> Result<Checked, NoMemory>
    ensures proved { IfOk result (λ checked. (checked ≡ Checked.Proved) ↔ Good desc.now c.now) }
    ensures unproved { (rule node : ℕ) → IfOk result (λ checked. checked ≡ Checked.Unproved rule node → FirstFault desc.now c.now rule node) }
    ensures one_tree { IfOk result (λ checked. checked ≡ Checked.Proved → (b : List ℕ) (t u : TreeV)
        → NMeans desc.now 0 0 [] b t → NMeans desc.now 0 0 [] b u → t ≡ u) }
{
    good_leaves_one_tree();
    let claimed = c.len();
    let count = desc.len();
    if claimed != count {
        return Ok(Checked::Unproved { rule: 1, node: 0 });
    }
    for node in 0..count {
        let this = desc.node(node);
        match broken_rule(alloc, desc, c, node, this)? {
            Some(rule) => return Ok(Checked::Unproved { rule, node }),
            None => {}
        }
    }
    Ok(Checked::Proved)
}
