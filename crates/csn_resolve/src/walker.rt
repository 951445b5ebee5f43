ghost use Rattle.csn_resolve.specs.Marked.{AreTables};

use crate::marks::Marks;
use crate::names::Names;
use csn_desc::Reading;

/// What a walk asks: the rules by their names, which rules are empty of strings in the reading and for a
/// sender, and which are fields of constant width.
#[derive(Clone, Copy)]
pub(crate) struct Walker<'a> {
    pub names: &'a Names<'a>,
    pub reading: Reading,
    pub void: &'a Marks<'a>,
    pub void_sent: &'a Marks<'a>,
    pub narrow: &'a Marks<'a>,
    ghost tables: { AreTables names.now reading void.now void_sent.now narrow.now },
}
