/// Which of the two readings of a description is meant: a receiver takes spare bits of any value, a
/// sender writes the one value that they have (3GPP TS 44.060).
#[derive(Clone, Copy, Debug, PartialEq, Eq, Hash)]
pub enum Reading {
    Received,
    Sent,
}
