//! The lines of an input, each answered as soon as its line feed was taken.
#![tactic(auto)]

mod answers;
mod capture_text;
mod fault;
mod jobs;
pub mod laws;
mod lines;
mod migrate;
mod output;
mod replay;
mod segments;
mod show;
mod whole_lines;
mod write;

pub use capture_text::CaptureText;
pub use fault::Fault;
pub use jobs::{answer_captures, answer_lines};
pub use lines::{Answered, LINE_FEED, LineCommand, LineResult, Lines, MOST_INPUT};
pub use migrate::Migrate;
pub use output::{flush, pass_on};
pub use segments::Segments;
pub use show::ShowLines;
pub use whole_lines::{WholeLineCommand, WholeLines};
pub use write::WriteLines;
