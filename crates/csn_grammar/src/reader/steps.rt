//! The steps through the body of a rule, one token each.

ghost use Rattle.std.specs.Prelude.{◌≡◌, []};
ghost use Rattle.csn_grammar.specs.reader.Gives.{Gives};
ghost use Rattle.csn_grammar.specs.reader.BodySteps.{fresh, body_step};

mod base;
mod choice;
mod closing;
mod joint;
mod level;
mod name;
mod sequence;
mod side;

use crate::reader::body::{Body, Frames, Mode, Next, Within};
use crate::reader::piece::Piece;
use crate::reader::steps::base::{after_base, in_exponent};
use crate::reader::steps::choice::after_seq;
use crate::reader::steps::joint::after_side;
use crate::reader::steps::level::fresh;
use crate::reader::steps::name::{after_words, first_word};
use crate::reader::steps::side::begin_side;
use crate::reader::stop::Stop;
use std::alloc::Global;

/// The body of a rule of which nothing is read.
pub fn body_of(alloc: Global) -> Body
    ensures { result ≡ record { frames = []; level = fresh; mode = Mode.Side } }
{
    Body {
        frames: Frames::new(alloc),
        level: fresh(alloc),
        mode: Mode::Side,
    }
}

/// Takes one token of the body of a rule.
#[tactic(auto, unfolding(crate::specs::reader::BodySteps::body_step))]
pub fn body_step(alloc: Global, body: Body, piece: Piece<'_>) -> Result<Next, Stop>
    ensures { Gives result
        (body_step body.frames body.level body.mode piece.entry.token.kind piece.entry.token.start piece.entry.token.end piece.entry.text.now) }
{
    let Body {
        frames,
        level,
        mode,
    } = body;
    let within = Within { frames, level };
    match mode {
        Mode::Side => begin_side(alloc, within, piece),
        Mode::Less(start) => first_word(alloc, within, start, piece),
        Mode::Name { start, words } => after_words(alloc, within, piece, start, words),
        Mode::Base(base) => after_base(alloc, within, base, piece),
        Mode::Done(side) => after_side(alloc, within, side, piece),
        Mode::Slashes(seq) => after_seq(alloc, within, seq, piece.token),
        Mode::Exponent { base, progress } => in_exponent(alloc, within, base, progress, piece),
    }
}
