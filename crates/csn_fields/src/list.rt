use crate::event::{Event, Events};
use crate::leaf::Leaf;
use std::alloc::Global;
use std::marker::Model;

/// The leaves of a block in a list, while there is memory. A contract sees the list, and whether memory was wanting.
#[derive(Drop)]
pub struct LeafList {
    leaves: Vec<Leaf>,
    short: bool,
}

impl Model for LeafList {
    ghost use Rattle.csn_fields.specs.Lists.{LeavesV};

    ghost Value = { LeavesV };

    ghost view = { λ l. record { leaves = l.leaves.items; short = l.short } };
}

impl LeafList {
    ghost use Rattle.std.specs.Prelude.{◌≡◌, [], false};

    /// No leaves. It takes no memory.
    pub fn new(alloc: Global) -> LeafList
        ensures { result ≡ record { leaves = []; short = false } }
    {
        LeafList {
            leaves: Vec::new(alloc),
            short: false,
        }
    }

    /// Whether memory was wanting; the leaves behind that are not in the list.
    pub fn is_short(&self) -> bool
        ensures { result ≡ self.now.short }
    {
        self.short
    }

    /// The leaves.
    pub fn into_leaves(self) -> Vec<Leaf>
        ensures { result.items ≡ self.leaves }
    {
        self.leaves
    }
}

impl Events for LeafList {
    ghost use Rattle.csn_fields.specs.Lists.{Lists};

    ghost tells = { Lists };

    fn event(&mut self, event: Event) {
        if let Event::Leaf(leaf) = event {
            self.add(leaf);
        }
    }
}

impl LeafList {
    ghost use Rattle.csn_fields.specs.Lists.{AddsLeaf};

    /// One leaf more, while there is memory.
    fn add(&mut self, leaf: Leaf)
        ensures { AddsLeaf leaf self.old self.new }
    {
        if !self.short {
            self.short = self.leaves.push(leaf).is_err();
        }
    }
}
