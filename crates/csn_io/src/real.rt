//! Forms of the outside over files, readers and writers. They tell nothing of content; what a call moves is said of the
//! bytes that the reader or the writer tells.
mod flushing;
mod shelf;
mod sink;
mod source;

pub use shelf::DirShelf;
pub use sink::StdSink;
pub use source::StdSource;
