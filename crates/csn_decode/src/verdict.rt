use thiserror::Error;

/// Why a block that has ended gives no tree.
#[derive(Clone, Copy, Debug, PartialEq, Eq, Hash, Error)]
pub enum DecodeFault {
    /// The bits have no tree, and the first `place` of them can be followed.
    #[error("no string of the description past bit {place}")]
    Refused { place: u32 },
    #[error("out of memory")]
    NoMemory,
}
