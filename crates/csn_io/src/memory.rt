//! Forms of the outside that hold their bytes, tell them all, and fail at the calls that they are
//! told to fail at.
mod calls;
mod shelf;
mod sink;
mod source;
mod unread;

pub use shelf::MemShelf;
pub use sink::MemSink;
pub use source::MemSource;
