ghost use Rattle.std.specs.Prelude.{◌≤◌, ◌↔◌, IsTrue};
ghost use Rattle.csn_treetext.specs.declared.bounds.TheConstants.{MOST_LEVELS};
ghost use Rattle.csn_treetext.specs.Fits.{Fits, FitsInside};

use csn_desc::{Shape, Tree};

/// The most levels of a tree that has a text.
pub const MOST_LEVELS: u32 = 64;

/// The greatest number of an alternative in a text.
pub const GREATEST_ALTERNATIVE: u16 = 16_383;

/// The most bits of a leaf that is written as a number.
pub const MOST_SHORT: u32 = 64;

/// The most octets of a leaf.
pub const MOST_OCTETS: usize = 65_536;

/// Whether a tree has a text: it has at most 64 levels, and alternatives below 16,384. It looks no deeper
/// than that into a tree that has more levels.
pub fn fits(tree: &Tree) -> bool
    ensures { IsTrue result ↔ Fits tree.now }
{
    fits_inside(tree, 0)
}

// Whether the tree fits with so many levels round it.
fn fits_inside(tree: &Tree, round: u32) -> bool
    requires { round ≤ MOST_LEVELS }
    ensures { IsTrue result ↔ FitsInside round tree.now }
{
    if round == MOST_LEVELS {
        return false;
    }
    match &tree.shape {
        Shape::Empty | Shape::Bits(_) => true,
        Shape::Row(rows) => {
            for at in 0..rows.len() {
                if !fits_inside(rows.get(at), round + 1) {
                    return false;
                }
            }
            true
        }
        Shape::Alt(number, tree) => {
            *number <= GREATEST_ALTERNATIVE && fits_inside(tree, round + 1)
        }
        Shape::Named(_, tree) => fits_inside(tree, round + 1),
    }
}
