//! The leaves of a block with their places, as the block comes: to whoever is told, or as a list.
#![tactic(auto)]

mod alternatives;
mod block;
mod event;
mod follower;
pub mod laws;
mod leaf;
mod list;
mod outline;
mod outlines;
mod places;
mod reader;
mod refusal;
mod string;
mod track;

pub use alternatives::Alternatives;
pub use block::{Fields, fields_of, tell_block, tell_octets};
pub use event::{Event, Events};
pub use follower::Follower;
pub use leaf::{Leaf, LeafKind, Role, width_of};
pub use list::LeafList;
pub use places::Places;
pub use reader::FieldReader;
pub use refusal::{Ended, OpenNode, Refusal};
pub use string::{StringReader, tell_string};
