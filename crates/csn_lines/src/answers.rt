//! What the answers of several commands are made of.

ghost use Rattle.std.specs.Prelude.{◌≡◌, ◌++◌, List, ℕ, codes, OnOk, OnErr};
ghost use Rattle.std.specs.Fmt.{decimal};

use csn_plan::push_number;
use csn_treetext::TextFault;
use std::alloc::AllocError;

/// Writes the answer to a line that is no text of a tree: how many of its bytes begin one.
pub fn answer_text_fault(fault: TextFault, out: &mut Vec<u8>) -> Result<(), AllocError>
    ensures ok { OnOk result ((place : ℕ) × (fault ≡ TextFault.Place place)
        × (out.new.items ≡ out.old.items ++ (codes "bad " ++ decimal place))) }
    ensures err { OnErr result ((tail : List ℕ) × (out.new.items ≡ out.old.items ++ tail)) }
{
    match fault {
        TextFault::Place { place } => {
            out.extend_from_slice(b"bad ")?;
            push_number(out, place)
        }
        TextFault::NoMemory => Err(AllocError),
    }
}
