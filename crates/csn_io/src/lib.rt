//! The outside: shelves of files, sources of input and sinks of output, in memory and real.
#![tactic(auto)]

mod faults;
mod memory;
mod real;
mod shelf;
mod sink;
mod source;

pub use memory::{MemShelf, MemSink, MemSource};
pub use real::{DirShelf, StdSink, StdSource};
pub use shelf::{Shelf, ShelfFault};
pub use sink::{Put, Sink};
pub use source::{Got, Source};
