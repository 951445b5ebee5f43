ghost use Rattle.std.specs.Prelude.{◌≡◌};
ghost use Rattle.csn_treetext.specs.declared.fault.TextFault.TheVariants.{NoMemory as no_memory};

use csn_bits::NoMemory;
use thiserror::Error;

/// Why bytes could not be read as the text of a tree.
#[derive(Clone, Copy, Debug, Drop, PartialEq, Eq, Error)]
pub enum TextFault {
    /// They are no such text. As many of them as `place` says begin one, and not one more.
    #[error("no text of a tree from byte {place} on")]
    Place { place: u32 },
    #[error("out of memory")]
    NoMemory,
}

impl From<NoMemory> for TextFault {
    ghost from_gives = { λ _ e. e ≡ no_memory };

    fn from(_e: NoMemory) -> TextFault {
        TextFault::NoMemory
    }
}
