ghost use Rattle.std.specs.Prelude.{◌≡◌};
ghost use Rattle.csn_bits.specs.Fault.{fault_for};
ghost use Rattle.csn_bits.specs.declared.fault.BitsFault.TheVariants.{NoMemory as no_memory};

use std::alloc::{AllocError, AllocFailed};
use thiserror::Error;

/// Why bits could not be had.
#[derive(Clone, Copy, Debug, Drop, PartialEq, Eq, Error)]
pub enum BitsFault {
    /// The first byte of the digits of a line that is no hexadecimal digit; columns count from 0.
    #[error("no hexadecimal digit at column {column}")]
    BadDigit { column: u32 },
    /// A line without digits, with half an octet, or with a tail that is not `/` and a digit from 1
    /// to 7.
    #[error("no whole octets, or a bad tail")]
    BadLength,
    /// A bit past those that the tail of a line counts is 1.
    #[error("an unused bit is 1")]
    BadFill,
    /// More than 65,536 octets, or 524,288 bits.
    #[error("more than 524288 bits")]
    TooManyBits,
    #[error("out of memory")]
    NoMemory,
}

impl From<AllocError> for BitsFault {
    ghost from_gives = { λ _ e. e ≡ no_memory };

    fn from(_e: AllocError) -> BitsFault {
        BitsFault::NoMemory
    }
}

impl<T: Drop> From<AllocFailed<T>> for BitsFault {
    ghost from_gives = { λ _ e. e ≡ no_memory };

    fn from(_e: AllocFailed<T>) -> BitsFault {
        BitsFault::NoMemory
    }
}

/// Why a line is no block line. Where several reasons hold, the first of them in this order is
/// told.
#[derive(Clone, Copy, Debug, Drop, PartialEq, Eq)]
pub enum LineWhy {
    /// The first byte before any `/` that is no hexadecimal digit; columns count from 0.
    BadDigit { column: u32 },
    /// No digits, an odd number of them, or a tail that is not one digit from 1 to 7.
    BadLength,
    /// A bit past those that the tail counts is 1.
    BadFill,
    /// More than 65,536 octets.
    TooManyBits,
}

impl From<LineWhy> for BitsFault {
    ghost from_gives = { λ why e. e ≡ fault_for why };

    fn from(why: LineWhy) -> BitsFault {
        match why {
            LineWhy::BadDigit { column } => BitsFault::BadDigit { column },
            LineWhy::BadLength => BitsFault::BadLength,
            LineWhy::BadFill => BitsFault::BadFill,
            LineWhy::TooManyBits => BitsFault::TooManyBits,
        }
    }
}

/// Want of memory, where nothing else can go wrong.
#[derive(Clone, Copy, Debug, Drop, PartialEq, Eq, Error)]
#[error("out of memory")]
pub struct NoMemory;

impl From<AllocError> for NoMemory {
    fn from(_e: AllocError) -> NoMemory {
        NoMemory
    }
}

impl<T: Drop> From<AllocFailed<T>> for NoMemory {
    fn from(_e: AllocFailed<T>) -> NoMemory {
        NoMemory
    }
}
