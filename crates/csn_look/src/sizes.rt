//! Which sizes the keys of a table have. Only for words of fewer than 6 bits is it looked up: these are many behind
//! wide fields, and mostly none is a key.

ghost use Rattle.std.specs.Prelude.{◌≡◌, ℕ, ◌+◌, ◌*◌, ◌^◌, ◌<◌, ◌≤◌, length};
ghost use Rattle.csn_look.specs.KeySteps.{HasSizes};

use crate::key_marks::{CUT, MARK_WORDS, STARTS};
use crate::key_products::words_of;
use crate::key_table::KeyTable;
use crate::marks::next_marked;
use crate::word::PLACES;

/// How many sizes are looked up: those of the words with the first 64 places.
const FEW: usize = 6;

/// A bit for each size that keys of a table may have, the least significant one for 0 bits: whole ones, cut ones and
/// words that begin keys.
#[derive(Clone, Copy)]
pub(crate) struct Sizes {
    pub whole: usize,
    pub cut: usize,
    pub starts: usize,
}

impl Sizes {
    /// The sizes of the keys of a table.
    pub fn of(table: &KeyTable) -> Sizes
        requires { length table.now ≡ MARK_WORDS }
        ensures whole { HasSizes table.now 0 result.whole }
        ensures cut { HasSizes table.now CUT result.cut }
        ensures starts { HasSizes table.now STARTS result.starts }
    {
        Sizes {
            whole: sizes_of(table, 0),
            cut: sizes_of(table, CUT),
            starts: sizes_of(table, STARTS),
        }
    }
}

/// The sizes of the words whose marks begin at `plane`.
fn sizes_of(table: &KeyTable, plane: usize) -> usize
    requires size { length table.now ≡ MARK_WORDS }
    requires plane { plane ≤ STARTS }
    ensures { HasSizes table.now plane result }
{
    let mut sizes = PLACES - (1 << FEW);
    for size in 0..FEW {
        let words = words_of(size);
        let end = plane + 2 * words;
        if next_marked(table, plane + words, end) < end {
            sizes |= words;
        }
    }
    sizes
}
