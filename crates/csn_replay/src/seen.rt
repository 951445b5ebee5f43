use csn_catalogue::Entry;

/// A block that was decided.
#[derive(Clone, Copy, Debug, Drop, PartialEq, Eq)]
pub struct Seen {
    pub entry: Entry,
    /// The number of its bits.
    pub bits: u32,
    /// Whether it is a string of its entry.
    pub ok: bool,
}

/// What a watcher counts.
#[derive(Clone, Copy, Debug, Drop, PartialEq, Eq)]
pub enum Kind {
    /// The blocks of an entry.
    Blocks(Entry),
    /// The blocks that are refused.
    Refused,
    /// The bits of all blocks.
    Length,
}

/// What a watcher wants after a block.
#[derive(Clone, Copy, Debug, Drop, PartialEq, Eq)]
pub enum Go {
    /// To see the next block too.
    Stay,
    /// To report, and to be dropped.
    Done,
}
