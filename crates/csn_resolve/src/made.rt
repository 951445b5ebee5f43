ghost use Rattle.std.specs.Prelude.{◌≡◌, ◌<◌, ◌≤◌, ◌+◌, ℕ, List, [], ◌∷◌, ◌++◌, length, slice_get, Some, Err, IfOk, OnOk};
ghost use Rattle.csn_desc.specs.Overfull.{IsOverfull, IsFirstOverfull};
ghost use Rattle.csn_desc.specs.Formed.{Spans};
ghost use Rattle.csn_desc.specs.WellFormed.{AreWellFormed};
ghost use Rattle.csn_resolve.specs.declared.why.Why.{Why as WhyV};
ghost use Rattle.csn_resolve.specs.Gives.{Placed, placed};
ghost use Rattle.csn_resolve.specs.Resolved.{nodes_of};
ghost use Rattle.csn_resolve.specs.Made.{IsOverfullAt};

use crate::fault::ResolveFault;
use crate::steps::refusal;
use crate::why::Why;
use csn_bits::NoMemory;
use csn_desc::{Desc, DescFault, MOST_NODES, Node, Reading};
use std::alloc::Global;
use std::marker::Model;

/// The nodes that are made so far, from the root on, each with the place in the text, in bytes from 0, where
/// the part that gives it begins. A contract sees the list of them.
#[derive(Drop)]
pub(crate) struct Made {
    nodes: Vec<Node>,
    places: Vec<u32>,
}

impl Model for Made {
    ghost use Rattle.std.specs.Prelude.{List, ◌≡◌, ◌≤◌, length};
    ghost use Rattle.csn_desc.specs.declared.desc.TheConstants.{MOST_NODES};
    ghost use Rattle.csn_resolve.specs.Gives.{Placed};
    ghost use Rattle.csn_resolve.specs.Made.{paired};

    ghost Value = { List Placed };

    ghost view = { λ m. paired m.nodes.items m.places.items };

    ghost invariant = { λ m. (length m.nodes.items ≡ length m.places.items) × (length m.nodes.items ≤ MOST_NODES) };
}

impl Made {
    /// No nodes. It takes no memory.
    pub(crate) fn new(alloc: Global) -> Made
        ensures { result ≡ [] }
    {
        Made {
            nodes: Vec::new(alloc),
            places: Vec::new(alloc),
        }
    }

    /// How many nodes there are, which is the number of the next one.
    pub(crate) fn len(&self) -> u16
        ensures len { result ≡ length self.now }
        ensures bound { result ≤ MOST_NODES }
    {
        self.nodes.len() as u16
    }

    /// Adds a node at the end, that the part at this byte gives.
    pub(crate) fn push(&mut self, node: Node, place: u32) -> Result<(), NoMemory>
        requires { length self.old < MOST_NODES }
        ensures { OnOk result (self.new ≡ self.old ++ placed node place ∷ []) }
    {
        if self.places.push(place).is_err() {
            drop(node);
            return Err(NoMemory);
        }
        if let Err(failed) = self.nodes.push(node) {
            drop(failed.value);
            self.places.pop();
            return Err(NoMemory);
        }
        Ok(())
    }

    /// Puts a node in the place of the one with this number.
    pub(crate) fn set(&mut self, number: u16, node: Node)
        requires { number < length self.old }
        ensures { (before after : List Placed) (other : Placed)
            → self.old ≡ before ++ other ∷ after → number ≡ length before
            → self.new ≡ before ++ placed node other.place ∷ after }
    {
        self.nodes[number as usize] = node;
    }

    /// The description that has these nodes, which are numbered through and well formed. A field that some
    /// count stands on and that sees 64 such fields is refused at its place.
    pub(crate) fn describe(self, alloc: Global, reading: Reading) -> Result<Desc, ResolveFault>
        requires numbered { Spans (nodes_of self) 0 (length (nodes_of self)) }
        requires well_formed { AreWellFormed (nodes_of self) }
        ensures described { IfOk result (λ desc. desc ≡ record { reading = reading; nodes = nodes_of self }) }
        ensures fits { OnOk result ((i : ℕ) → ¬ IsOverfull (nodes_of self) i) }
        ensures refused { (why : WhyV) (place : ℕ) → result ≡ Err (ResolveFault.Refused why place) → IsOverfullAt self why place }
    {
        let Made { nodes, places } = self;
        match Desc::from_nodes(alloc, reading, nodes) {
            Ok(desc) => Ok(desc),
            Err(DescFault::TooManyVals { node }) => {
                Err(refusal(Why::TooManyVals, places[node as usize]))
            }
            Err(DescFault::NoMemory) => Err(ResolveFault::NoMemory),
            // a whole list of nodes is never refused so
            Err(DescFault::TooManyNodes) => unreachable!(),
            Err(DescFault::TooDeep) => unreachable!(),
        }
    }
}
