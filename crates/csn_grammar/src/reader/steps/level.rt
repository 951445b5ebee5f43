//! The states of the body that a step leads to.

ghost use Rattle.std.specs.Prelude.{◌≡◌, IfOk, IfErr, Err};
ghost use Rattle.csn_grammar.specs.reader.Gives.{Gives};
ghost use Rattle.csn_grammar.specs.reader.BodySteps.{goes, fresh, with_joint};

use crate::expr::{Branches, Exprs};
use crate::reader::body::{Body, Joint, Level, Mode, Next, Within};
use crate::reader::stop::Stop;
use std::alloc::Global;

/// More of the body.
pub fn goes(within: Within, mode: Mode) -> Next
    ensures { result ≡ Next.Goes (record { frames = within.frames; level = within.level; mode = mode }) }
{
    Next::Goes(Body {
        frames: within.frames,
        level: within.level,
        mode,
    })
}

/// Stops, and gives up what is open.
pub fn gives_up(within: Within, stop: Stop) -> Result<Next, Stop>
    ensures { result ≡ Err stop }
{
    drop(within);
    Err(stop)
}

/// More of the body in the mode that comes, where one does.
pub fn goes_on(within: Within, mode: Result<Mode, Stop>) -> Result<Next, Stop>
    ensures goes { IfOk mode (λ mode. Gives result (goes within.frames within.level mode)) }
    ensures stops { IfErr mode (λ stop. result ≡ Err stop) }
{
    match mode {
        Ok(mode) => Ok(goes(within, mode)),
        Err(stop) => gives_up(within, stop),
    }
}

/// The level with something else before the next side.
pub fn with_joint(level: Level, joint: Joint) -> Level
    ensures { result ≡ with_joint level joint }
{
    let Level {
        branches,
        error,
        items,
        joint: before,
    } = level;
    drop(before);
    Level {
        branches,
        error,
        items,
        joint,
    }
}

/// An expression of which nothing is read.
pub fn fresh(alloc: Global) -> Level
    ensures { result ≡ fresh }
{
    Level {
        branches: Branches::new(alloc),
        error: false,
        items: Exprs::new(alloc),
        joint: Joint::Alone,
    }
}
