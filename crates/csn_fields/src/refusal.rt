use crate::leaf::{Role, width_of};
use csn_desc::Node;

/// How a block ends.
#[derive(Clone, Copy, Debug, PartialEq, Eq, Hash)]
pub enum Ended {
    /// It is a string of the description, and all its events were told.
    Whole,
    /// It is none. The events that were told are those with which each block begins that goes on from its place.
    Refused(Refusal),
}

/// Where a block is refused.
#[derive(Clone, Copy, Debug, PartialEq, Eq, Hash)]
pub struct Refusal {
    /// How many bits can be followed: the place of the first that cannot, or of the end of a block that ends too early.
    pub place: u32,
    /// The innermost node that had begun and not ended. There is none at place 0, where nothing has begun yet, and where the
    /// root had ended before further bits.
    pub within: Option<OpenNode>,
}

/// A node that has begun and not ended.
#[derive(Clone, Copy, Debug, PartialEq, Eq, Hash)]
pub struct OpenNode {
    pub node: u16,
    pub role: Role,
    /// Its first bit, from 0.
    pub place: u32,
}

impl OpenNode {
    ghost use Rattle.std.specs.Prelude.{◌≡◌};
    ghost use Rattle.csn_fields.specs.Reading.{left_in};

    /// How many bits are left of it at a place, where it is this node: a leaf that has the same number of bits in all blocks.
    pub fn left(&self, place: u32, node: &Node) -> Option<u32>
        ensures { result ≡ left_in self.now.place place node.now }
    {
        let bits = width_of(node)?;
        let read = place.saturating_sub(self.place);
        Some(bits.saturating_sub(read))
    }
}
