use csn_desc::Tree;

/// What may stand next in a text.
#[derive(Clone, Copy, Drop)]
pub enum Next {
    /// A tree.
    Start,
    /// Behind `[`: the first tree of a row, or its end.
    Opened,
    /// Behind a tree of the innermost row.
    Behind,
}

/// How far a text was read.
#[derive(Drop)]
pub enum Taken {
    /// Up to a place, with what may stand there.
    Up(Next, usize),
    /// Up to a place, with a tree that has no other round it.
    Whole(Tree, usize),
    /// Up to a place from which no text of a tree goes on so.
    Refused(usize),
}
