use csn_io::{Shelf, Sink, Source};

/// What a run may touch: files by their names, the input, and where its answers go.
#[derive(Drop)]
pub struct Outside<B: Shelf, S: Source, K: Sink> {
    pub shelf: B,
    pub source: S,
    pub sink: K,
}
