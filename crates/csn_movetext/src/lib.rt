//! A tree as text or as JSON, written as the moves of its block come: no tree is made, and no memory is taken but for
//! what is written.
#![tactic(auto)]

mod alternatives;
mod block;
mod digits;
mod fault;
pub mod laws;
mod line;
mod octet_text;
mod openings;
mod room;
mod template;
mod templates;
mod track;
mod write;
mod writing;

pub use block::BlockText;
pub use csn_json::TreeForm;
pub use csn_judge::Fed;
pub use fault::{BlockFault, Unwritten};
pub use line::{LineEnd, LineText};
pub use openings::Openings;
pub use write::write_block;
