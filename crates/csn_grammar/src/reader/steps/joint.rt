//! Behind a side, where `&` or `=` may come.

ghost use Rattle.std.specs.Prelude.{◌≡◌};
ghost use Rattle.csn_grammar.specs.reader.Gives.{Gives};
ghost use Rattle.csn_grammar.specs.reader.BodySteps.{goes, with_joint, after_window, after_side};

use crate::expr::Expr;
use crate::reader::body::{Joint, Level, Mode, Next, Within};
use crate::reader::build::joined;
use crate::reader::piece::Piece;
use crate::reader::steps::level::{gives_up, goes, with_joint};
use crate::reader::steps::sequence::after_item;
use crate::reader::stop::Stop;
use csn_bits::NoMemory;
use csn_lexer::TokenKind;
use std::alloc::Global;

// Another side has to come in the same item.
fn begin_other(within: Within, joint: Joint) -> Result<Next, Stop>
    ensures { Gives result (goes within.frames (with_joint within.level joint) Mode.Side) }
{
    let Within { frames, level } = within;
    let level = with_joint(level, joint);
    Ok(goes(Within { frames, level }, Mode::Side))
}

// Behind a side, or two with `&` between.
#[tactic(auto, unfolding(crate::specs::reader::BodySteps::after_window))]
fn after_window(alloc: Global, within: Within, window: Expr, piece: Piece<'_>) -> Result<Next, Stop>
    ensures { Gives result (after_window within.frames within.level window piece.entry.token.kind
        piece.entry.token.start piece.entry.token.end piece.entry.text.now) }
{
    match piece.token.kind {
        TokenKind::Equal => begin_other(within, Joint::Sends(window)),
        _ => after_item(alloc, within, window, piece),
    }
}

/// Takes the token behind a side that has no exponent any more.
#[tactic(auto, unfolding(crate::specs::reader::BodySteps::after_side, crate::specs::reader::BodySteps::after_joint))]
pub fn after_side(alloc: Global, within: Within, side: Expr, piece: Piece<'_>) -> Result<Next, Stop>
    ensures { Gives result (after_side within.frames within.level side piece.entry.token.kind piece.entry.token.start
        piece.entry.token.end piece.entry.text.now) }
{
    let Within { frames, level } = within;
    let Level {
        branches,
        error,
        items,
        joint,
    } = level;
    let rest = Within {
        frames,
        level: Level {
            branches,
            error,
            items,
            joint: Joint::Alone,
        },
    };
    match joint {
        Joint::Alone => match piece.token.kind {
            TokenKind::Ampersand => begin_other(rest, Joint::Window(side)),
            _ => after_window(alloc, rest, side, piece),
        },
        Joint::Window(left) => match joined(alloc, Joint::Window(left), side) {
            Ok(window) => after_window(alloc, rest, window, piece),
            Err(NoMemory) => gives_up(rest, Stop::NoMemory),
        },
        Joint::Sends(left) => match joined(alloc, Joint::Sends(left), side) {
            Ok(item) => after_item(alloc, rest, item, piece),
            Err(NoMemory) => gives_up(rest, Stop::NoMemory),
        },
    }
}
