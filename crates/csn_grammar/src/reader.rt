//! The reader of rules: an explicit machine that takes one token after another.

mod body;
mod build;
mod exponents;
mod piece;
mod progress;
mod spellings;
mod state;
mod steps;
mod stop;

pub use piece::Piece;
pub use state::{Reader, State, reader_step};
pub use stop::Stop;
