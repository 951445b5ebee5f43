//! Behind a base, where an exponent or `//` may come.

ghost use Rattle.std.specs.Prelude.{◌≡◌, Some};
ghost use Rattle.csn_lexer.specs.declared.token.TokenKind.{TokenKind};
ghost use Rattle.csn_grammar.specs.ExprV.{expr, group};
ghost use Rattle.csn_grammar.specs.Grammar.{components_of};
ghost use Rattle.csn_grammar.specs.reader.Gives.{Gives};
ghost use Rattle.csn_grammar.specs.reader.Building.{cut_group, power_of};
ghost use Rattle.csn_grammar.specs.reader.ExponentSteps.{exponent_step};
ghost use Rattle.csn_grammar.specs.reader.BodySteps.{goes, after_slashes, after_base, after_exponent};

use crate::exponent::Exponent;
use crate::expr::{Expr, Form, Span};
use crate::reader::body::{Mode, Next, Within};
use crate::reader::build::{components_of, group_of, power_of};
use crate::reader::exponents::exponent_step;
use crate::reader::piece::Piece;
use crate::reader::progress::{ExponentNext, Progress};
use crate::reader::steps::joint::after_side;
use crate::reader::steps::level::{gives_up, goes, goes_on};
use crate::reader::stop::Stop;
use csn_lexer::TokenKind;
use std::alloc::Global;

// Braces that are a truncation.
fn cut_braces(alloc: Global, span: Span, inner: Expr) -> Result<Mode, Stop>
    ensures { Gives result (Some (Mode.Done (expr span.start span.end (group (components_of inner))))) }
{
    let cut = components_of(alloc, inner)?;
    Ok(Mode::Done(group_of(alloc, span, cut)?))
}

// Takes the `//` behind a base: it belongs to braces that stand directly before it, and else to
// the sequence.
#[tactic(auto, unfolding(crate::specs::reader::BodySteps::after_slashes))]
fn after_slashes(alloc: Global, within: Within, base: Expr, piece: Piece<'_>) -> Result<Next, Stop>
    requires { piece.token.kind ≡ TokenKind.SlashSlash }
    ensures { Gives result
        (after_slashes within.frames within.level (cut_group base piece.entry.token.end)
        base piece.entry.token.start piece.entry.token.end piece.entry.text.now) }
{
    let span = base.span;
    match base.form {
        Form::Group(inner) => {
            let whole = Span {
                start: span.start,
                end: piece.token.end,
            };
            goes_on(within, cut_braces(alloc, whole, Box::into_inner(inner)))
        }
        form => after_side(alloc, within, Expr { span, form }, piece),
    }
}

// A side that is a base with its exponent.
fn power(alloc: Global, base: Expr, end: u32, exponent: Exponent) -> Result<Mode, Stop>
    ensures { Gives result (Some (Mode.Done (power_of base end exponent))) }
{
    Ok(Mode::Done(power_of(alloc, base, end, exponent)?))
}

// A base with its exponent, which ends before the place `end`.
fn raised(
    alloc: Global,
    within: Within,
    base: Expr,
    end: u32,
    exponent: Exponent,
) -> Result<Next, Stop>
    ensures { Gives result (goes within.frames within.level (Mode.Done (power_of base end exponent))) }
{
    goes_on(within, power(alloc, base, end, exponent))
}

/// Takes the token behind a base, which may have an exponent.
#[tactic(auto, unfolding(crate::specs::reader::BodySteps::after_base))]
pub fn after_base(alloc: Global, within: Within, base: Expr, piece: Piece<'_>) -> Result<Next, Stop>
    ensures { Gives result (after_base within.frames within.level base piece.entry.token.kind piece.entry.token.start
        piece.entry.token.end piece.entry.text.now) }
{
    let progress = match piece.token.kind {
        TokenKind::ParenLeft => Progress::Bracket,
        TokenKind::Star => Progress::Star,
        TokenKind::StarStar => {
            return raised(alloc, within, base, piece.token.end, Exponent::Any);
        }
        TokenKind::SlashSlash => return after_slashes(alloc, within, base, piece),
        _ => return after_side(alloc, within, base, piece),
    };
    Ok(goes(within, Mode::Exponent { base, progress }))
}

/// Takes one token of an exponent.
#[tactic(auto, unfolding(crate::specs::reader::BodySteps::after_exponent))]
pub fn in_exponent(
    alloc: Global,
    within: Within,
    base: Expr,
    progress: Progress,
    piece: Piece<'_>,
) -> Result<Next, Stop>
    ensures { Gives result (after_exponent within.frames within.level base piece.entry.token.end
        (exponent_step progress piece.entry.token.kind piece.entry.text.now)) }
{
    match exponent_step(alloc, progress, piece) {
        Ok(ExponentNext::Goes(progress)) => Ok(goes(within, Mode::Exponent { base, progress })),
        Ok(ExponentNext::Ends(exponent)) => {
            raised(alloc, within, base, piece.token.end, exponent)
        }
        Err(stop) => {
            drop(base);
            gives_up(within, stop)
        }
    }
}
