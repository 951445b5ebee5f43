ghost use Rattle.std.specs.Prelude.{◌≡◌, ◌≤◌};

use crate::around::{Entered, Seen};

/// How many nodes were begun.
#[derive(Clone, Copy)]
pub(crate) struct Begun {
    pub nodes: u16,
    ghost few: { nodes ≤ 16384 },
}

/// What stands round a part: how many nodes, names put in and braces; the names; and the labelled items
/// that it sees.
#[derive(Clone, Copy)]
pub(crate) struct Around<'a> {
    pub depth: u8,
    pub names: &'a Entered<'a>,
    pub seen: &'a Seen<'a>,
    ghost shallow: { depth ≤ 64 },
}

/// What stands round the items in the braces that a rule in tail form repeats, and how many nodes are
/// begun before them.
#[derive(Clone, Copy)]
pub(crate) struct Turn<'a> {
    pub around: Around<'a>,
    pub begun: Begun,
}
