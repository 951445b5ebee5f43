//! The judge of blocks: bits in, moves out, or the exact bit of a refusal. It never goes back, and takes no
//! memory.
#![tactic(auto)]

mod block;
mod entry;
mod fed;
mod frame;
mod going;
mod judge;
mod laws;
mod leaf;
mod leaving;
mod machine;
mod pace;
mod paused;
mod picking;
mod reading;
mod source;
mod spelling;
mod track;
mod turn;
mod verdict;

pub use block::{Piece, judge_block, judge_next, judge_pieces};
pub use csn_desc::Move;
pub use fed::Fed;
pub use judge::Judge;
pub use paused::Paused;
pub use track::{NoTrack, Track};
pub use verdict::{Judged, Verdict};
