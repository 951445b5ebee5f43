//! Whether one description takes the blocks of another.

ghost use Rattle.std.specs.Prelude.{◌≡◌, ◌↔◌, IsTrue, []};
ghost use Rattle.csn_compat.specs.Takes.{Takes};
ghost use Rattle.csn_compat.specs.Laws.{TakesStrings};

use crate::pairs::Pairs;
use crate::taking::takes;
use csn_desc::Desc;

/// Whether the new description `now` takes the blocks of the old one `was`. Where it does, each block of the old one
/// has a tree by the new one; where it does not, each may still have one. Two nodes are compared at most once, and
/// nothing is allocated.
pub fn compat(was: &Desc, now: &Desc) -> bool
    requires one_reading { was.now.reading ≡ now.now.reading }
    ensures takes { IsTrue result ↔ Takes was.now now.now 0 0 [] }
    ensures strings { IsTrue result → TakesStrings was.now now.now }
{
    let (old, new) = (was.len(), now.len());
    prove!(0 < old);
    prove!(0 < new);
    takes(was, now, 0, 0, &mut Pairs::new())
}
