/// The versions of the texts of trees. They differ in the leaves of no bits and of more than 64.
#[derive(Clone, Copy, Debug, PartialEq, Eq)]
pub enum Version {
    /// The bits as digits.
    First,
    /// The bits as a block line.
    Second,
}
