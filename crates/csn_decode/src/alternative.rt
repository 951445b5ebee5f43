ghost use Rattle.std.specs.Prelude.{◌≡◌, slice_get, Some, IfSome};

use csn_desc::Parts;

/// The place of a part among the parts of a node, which rise, counted from 0.
pub(crate) fn place_of(parts: &Parts, part: u16) -> Option<u16>
    ensures { IfSome result (λ at. slice_get parts.now at ≡ Some part) }
{
    let mut low = 0;
    let mut high = parts.len();
    while low < high {
        let middle = low + (high - low) / 2;
        let there = parts.get(middle);
        if there == part {
            return Some(middle);
        }
        if there < part {
            low = middle + 1;
        } else {
            high = middle;
        }
    }
    None
}
