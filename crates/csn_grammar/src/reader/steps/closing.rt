//! The end of braces, of a labelled part or of the body.

ghost use Rattle.std.specs.Prelude.{Some};
ghost use Rattle.csn_grammar.specs.reader.Gives.{Gives};
ghost use Rattle.csn_grammar.specs.ExprV.{expr, group, labelled};
ghost use Rattle.csn_grammar.specs.reader.BodySteps.{goes, close_in, close};

use crate::expr::{Expr, Span};
use crate::reader::body::{Frame, Frames, Mode, Next, Opening, Within};
use crate::reader::build::{group_of, labelled_of};
use crate::reader::steps::level::{gives_up, goes_on};
use crate::reader::stop::Stop;
use csn_desc::Label;
use csn_lexer::{Token, TokenKind};
use std::alloc::Global;

// What may come behind braces.
fn behind_braces(alloc: Global, span: Span, body: Expr) -> Result<Mode, Stop>
    ensures { Gives result (Some (Mode.Base (expr span.start span.end (group body)))) }
{
    Ok(Mode::Base(group_of(alloc, span, body)?))
}

// What may come behind a labelled part.
fn behind_label(alloc: Global, span: Span, label: Label, body: Expr) -> Result<Mode, Stop>
    ensures { Gives result (Some (Mode.Base (expr span.start span.end (labelled label body)))) }
{
    Ok(Mode::Base(labelled_of(alloc, span, label, body)?))
}

// Leaves braces.
fn close_braces(alloc: Global, within: Within, span: Span, body: Expr) -> Result<Next, Stop>
    ensures { Gives result (goes within.frames within.level (Mode.Base (expr span.start span.end (group body)))) }
{
    goes_on(within, behind_braces(alloc, span, body))
}

// Leaves a labelled part.
fn close_label(
    alloc: Global,
    within: Within,
    span: Span,
    label: Label,
    body: Expr,
) -> Result<Next, Stop>
    ensures { Gives result (goes within.frames within.level (Mode.Base (expr span.start span.end (labelled label body)))) }
{
    goes_on(within, behind_label(alloc, span, label, body))
}

// Leaves what is open in a frame.
#[tactic(auto, unfolding(crate::specs::reader::BodySteps::close_in))]
fn close_in(
    alloc: Global,
    frames: Frames,
    frame: Frame,
    body: Expr,
    token: Token,
) -> Result<Next, Stop>
    ensures { Gives result (close_in frames frame.level frame.start frame.opening body token.kind token.end) }
{
    let Frame {
        start,
        opening,
        level,
    } = frame;
    let span = Span {
        start,
        end: token.end,
    };
    let within = Within { frames, level };
    match (opening, token.kind) {
        (Opening::Brace, TokenKind::BraceRight) => close_braces(alloc, within, span, body),
        (Opening::Label(label), TokenKind::Greater) => {
            close_label(alloc, within, span, label, body)
        }
        _ => {
            drop(body);
            gives_up(within, Stop::Refused)
        }
    }
}

/// Leaves what is open, where the token closes it.
#[tactic(auto, unfolding(crate::specs::reader::BodySteps::close))]
pub fn close(alloc: Global, mut frames: Frames, body: Expr, token: Token) -> Result<Next, Stop>
    ensures { Gives result (close frames body token.kind token.end) }
{
    match frames.pop() {
        Some(frame) => close_in(alloc, frames, frame, body, token),
        None => match token.kind {
            TokenKind::Semicolon => Ok(Next::Ends(body)),
            _ => {
                drop(body);
                Err(Stop::Refused)
            }
        },
    }
}
