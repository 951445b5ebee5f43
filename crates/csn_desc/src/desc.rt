ghost use Rattle.std.specs.Prelude.{◌≡◌, ◌<◌, ◌≤◌, ℕ, length, slice_get, IfOk, OnOk};
ghost use Rattle.csn_desc.specs.Formed.{Spans, IsDescription, is_counted, counted_marks};
ghost use Rattle.csn_desc.specs.WellFormed.{AreWellFormed};
ghost use Rattle.csn_desc.specs.Overfull.{IsOverfull, IsFirstOverfull};

use crate::builder::DescFault;
use crate::node::Node;
use crate::overfull::{counted_marks, first_overfull};
use crate::reading::Reading;
use std::alloc::Global;
use std::marker::Model;

/// The most nodes that a description has.
pub const MOST_NODES: u16 = 16_384;

/// A description in one reading: nodes, numbered from the root on, each part before the next. A contract
/// sees the reading and the list of nodes.
#[derive(Drop)]
pub struct Desc {
    reading: Reading,
    nodes: Vec<Node>,
    // for each node, whether some count stands on it
    counted: Vec<bool>,
}

impl Model for Desc {
    ghost use Rattle.std.specs.Prelude.{List, ◌≡◌};
    ghost use Rattle.csn_desc.specs.Nodes.{DescV};

    ghost Value = { DescV };

    ghost use Rattle.csn_desc.specs.Formed.{IsDescription, counted_marks};

    ghost view = { λ d. record { reading = d.reading; nodes = d.nodes.items } };

    ghost invariant = { λ d. IsDescription (record { reading = d.reading; nodes = d.nodes.items })
        × (d.counted.items ≡ counted_marks d.nodes.items) };
}

impl Desc {
    /// The description that has these nodes, which are numbered through and well formed. `TooManyVals` comes
    /// where a field that some count stands on sees 64 such fields, and tells the first.
    pub fn from_nodes(alloc: Global, reading: Reading, nodes: Vec<Node>) -> Result<Desc, DescFault>
        requires few { length nodes.items ≤ MOST_NODES }
        requires numbered { Spans nodes.items 0 (length nodes.items) }
        requires well_formed { AreWellFormed nodes.items }
        ensures ok { IfOk result (λ desc. desc ≡ record { reading = reading; nodes = nodes.items }) }
        ensures fits { OnOk result ((i : ℕ) → ¬ IsOverfull nodes.items i) }
        ensures vals { (node : ℕ) → result ≡ Err (DescFault.TooManyVals node) → IsFirstOverfull nodes.items node }
        ensures there { (node : ℕ) → result ≡ Err (DescFault.TooManyVals node) → node < length nodes.items }
        ensures others { (¬ (result ≡ Err DescFault.TooManyNodes)) × (¬ (result ≡ Err DescFault.TooDeep)) }
    {
        let Ok(counted) = counted_marks(alloc, nodes.as_slice()) else {
            return Err(DescFault::NoMemory);
        };
        match first_overfull(nodes.as_slice(), counted.as_slice(), 0, 0, 0) {
            Some(node) => Err(DescFault::TooManyVals { node }),
            None => Ok(Desc {
                reading,
                nodes,
                counted,
            }),
        }
    }

    /// The reading that the description is in.
    pub fn reading(&self) -> Reading
        ensures { result ≡ self.now.reading }
    {
        self.reading
    }

    /// How many nodes there are.
    pub fn len(&self) -> u16
        ensures len { result ≡ length self.now.nodes }
        ensures bound { result ≤ MOST_NODES }
        ensures description { IsDescription self.now }
    {
        self.nodes.len() as u16
    }

    /// The node with the number `i`; the root is 0.
    pub fn node(&self, i: u16) -> &Node
        requires { i < length self.now.nodes }
        ensures { slice_get self.now.nodes i ≡ Some result.now }
    {
        &self.nodes[i as usize]
    }

    /// Whether some count stands on the field whose label is node `i`.
    pub fn counts(&self, i: u16) -> bool
        requires { i < length self.now.nodes }
        ensures { result ≡ is_counted self.now.nodes i }
    {
        self.counted[i as usize]
    }
}
