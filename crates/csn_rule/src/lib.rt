//! A rule of a description as one value that a program in another language may hold, with what judges and shows its
//! blocks, tells their events and writes them, into buffers of the caller.
#![tactic(auto)]

mod buffer;
mod event;
mod fault;
mod handle;
mod list;
mod path;
mod rule;
mod shape;
mod stream;
mod stream_handle;
mod writing;

pub use buffer::copy_into;
pub use csn_bits::{MOST_BITS, MOST_LINE, NoMemory};
pub use csn_certify::Conflict;
pub use csn_desc::Reading;
pub use csn_encode::{Misfit, MisfitWhy};
pub use csn_fields::Ended;
pub use csn_json::TreeForm;
pub use csn_judge::{Judged, Verdict};
pub use csn_movetext::BlockFault;
pub use csn_plan::MOST_DESCRIPTION;
pub use csn_resolve::Why;
pub use event::FlatEvent;
pub use fault::{NoBlock, NoRule};
pub use handle::Handle;
pub use path::copy_path;
pub use rule::{Rule, Told};
pub use shape::{ANY_BITS, NodeShape};
pub use stream::Stream;
pub use stream_handle::StreamHandle;
