ghost use Rattle.std.specs.Prelude.{◌≡◌};

use crate::frame::Frame;
use crate::pace::Pace;
use crate::source::Held;
use arrayvec::ArrayVec;
use csn_certify::{MOST_NUMBERS, Number};
use csn_desc::MOST_DEPTH;
use std::marker::Model;

/// A judge that was put aside between two pieces of a block. It holds no plan, so it may be kept beside the one by which the
/// judge goes on.
#[derive(Drop)]
pub struct Paused {
    pub(crate) frames: ArrayVec<Frame, MOST_DEPTH>,
    pub(crate) values: ArrayVec<Number, MOST_NUMBERS>,
    pub(crate) pace: Pace,
    pub(crate) held: Held,
    pub(crate) place: u32,
    pub(crate) limit: u32,
    pub(crate) seen: u32,
    pub(crate) refused: Option<u32>,
}

impl Model for Paused {
    ghost use Rattle.csn_judge.specs.Paused.{PausedV, paused_of, IsPaused};

    ghost Value = { PausedV };

    ghost view = { paused_of };

    ghost invariant = { IsPaused };
}

impl Paused {
    /// How many bits have come, with those of the piece that was refused, and none after it.
    pub fn seen(&self) -> u32
        ensures { result ≡ self.now.seen }
    {
        self.seen
    }
}
