use arrayvec::ArrayVec;

/// The most octets of a message: two bodies of 21.
pub const MOST_MESSAGE: usize = 42;

/// What a block gives.
#[derive(Debug, Drop, PartialEq, Eq)]
pub enum Joined {
    /// The message that the block ends.
    Whole(ArrayVec<u8, MOST_MESSAGE>),
    /// The block is the first segment of the message of this radio transaction, and waits for the second.
    Waiting { rti: u8 },
    /// The block gives no message.
    Refused(SegmentWhy),
}

/// Why a block gives no message. Of several reasons the first in this order is told.
#[derive(Clone, Copy, Debug, Drop, PartialEq, Eq, Hash)]
pub enum SegmentWhy {
    /// It has not the 23 octets of a control block.
    BadLength,
    /// Its payload type is that of a data block.
    NotControl,
    /// Its payload type is reserved.
    Reserved,
    /// It is a second segment and not the final one.
    NotFinal,
    /// It is a second segment, and no first segment of its transaction waits.
    NoFirst,
}
