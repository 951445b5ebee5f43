/// One move through the nodes of a description, along the bits of a block.
#[derive(Clone, Copy, Debug, PartialEq, Eq, Hash)]
pub enum Move {
    /// The node with this number begins.
    Enter(u16),
    /// The node that began last and has not ended takes this bit.
    Bit(u8),
    /// The node that began last and has not ended ends.
    Leave,
}
