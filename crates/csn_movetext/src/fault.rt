ghost use Rattle.std.specs.Prelude.{◌≡◌};
ghost use Rattle.csn_movetext.specs.Blocks.{outcome_of};

use csn_judge::{Fed, Judged};
use thiserror::Error;

/// Why a block has no text.
#[derive(Clone, Copy, Debug, PartialEq, Eq, Hash, Error)]
pub enum BlockFault {
    /// The bits have no tree, and the first `place` of them can be followed.
    #[error("no string of the description past bit {place}")]
    Refused { place: u32 },
    #[error("out of memory")]
    NoMemory,
}

/// A block that has no text, with the bytes that stood before it.
#[derive(Drop)]
pub struct Unwritten {
    pub why: BlockFault,
    pub out: Vec<u8>,
}

/// What a block comes to behind an answer, by what the judge says of its end, where memory was wanting or not.
pub(crate) fn outcome(answer: Fed, judged: Judged, short: bool) -> Result<(), BlockFault>
    ensures { result ≡ outcome_of answer judged short }
{
    match (answer, judged) {
        (Fed::Refused { place }, _) => Err(BlockFault::Refused { place }),
        (Fed::NoMemory, _) => Err(BlockFault::NoMemory),
        (Fed::Going, Judged::Refused { place }) => Err(BlockFault::Refused { place }),
        (Fed::Going, Judged::Ok) if short => Err(BlockFault::NoMemory),
        (Fed::Going, Judged::Ok) => Ok(()),
    }
}
