use thiserror::Error;

/// Why a text has no rules.
#[derive(Clone, Copy, Debug, Drop, PartialEq, Eq, Error)]
pub enum GrammarFault {
    /// The text is no rules. The place, in bytes from 0, is the first byte of the first token that
    /// cannot follow what stands before it, that of a byte that begins no token, or the length of the
    /// text where it ends too early.
    #[error("no description: fault at byte {place}")]
    Syntax { place: u32 },
    #[error("out of memory")]
    NoMemory,
}
