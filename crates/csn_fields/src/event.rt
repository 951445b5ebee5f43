use crate::leaf::{Leaf, Role};

/// One event of a block, in the order of its bits. A node that is a leaf is told as it ends, and each other node where it
/// begins and where it ends.
#[derive(Clone, Copy, Debug, PartialEq, Eq, Hash)]
pub enum Event {
    /// The node with this number begins, where it is no leaf. `place` is that of the next bit, from 0.
    Begin { node: u16, role: Role, place: u32 },
    /// A leaf has ended.
    Leaf(Leaf),
    /// The node with this number ends, which is the innermost that began and has not ended. `place` is that of the next
    /// bit, from 0.
    End { node: u16, place: u32 },
}

/// What is told the events of a block.
pub trait Events {
    ghost use Rattle.csn_fields.specs.declared.event.Event.{Event};

    /// Which states one event may make of a state.
    ghost tells: { Self → Event → Self → Type 0 };

    /// One event.
    fn event(&mut self, event: Event)
        ensures { tells self.old event self.new };
}
