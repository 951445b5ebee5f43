//! Behind an alternative that is whole.

ghost use Rattle.std.specs.Prelude.{Some};
ghost use Rattle.csn_grammar.specs.reader.Gives.{Gives};
ghost use Rattle.csn_grammar.specs.reader.Building.{choice_with};
ghost use Rattle.csn_grammar.specs.reader.BodySteps.{goes, with_branch, close, after_seq};

use crate::expr::{Branch, Expr, Exprs};
use crate::reader::body::{Joint, Level, Mode, Next, Within};
use crate::reader::build::choice_with;
use crate::reader::steps::closing::close;
use crate::reader::steps::level::goes;
use crate::reader::stop::Stop;
use csn_lexer::{Token, TokenKind};
use std::alloc::Global;

// The level with one alternative more, in front of the next one.
fn with_branch(alloc: Global, level: Level, body: Expr, error: bool) -> Result<Level, Stop>
    ensures { Gives result (Some (with_branch level body error)) }
{
    let Level {
        mut branches,
        error: this_error,
        items,
        joint,
    } = level;
    drop(items);
    drop(joint);
    branches.add(Branch {
        error: this_error,
        body,
    })?;
    Ok(Level {
        branches,
        error,
        items: Exprs::new(alloc),
        joint: Joint::Alone,
    })
}

// Begins the next alternative.
fn next_branch(alloc: Global, within: Within, body: Expr, error: bool) -> Result<Next, Stop>
    ensures { Gives result (goes within.frames (with_branch within.level body error) Mode.Side) }
{
    let Within { frames, level } = within;
    let level = with_branch(alloc, level, body, error)?;
    Ok(goes(Within { frames, level }, Mode::Side))
}

// The alternatives of a level, with the last one.
fn choice_of(level: Level, last: Expr) -> Result<Expr, Stop>
    ensures { Gives result (Some (choice_with level.branches level.error last)) }
{
    drop(level.items);
    drop(level.joint);
    Ok(choice_with(level.branches, level.error, last)?)
}

// Ends the alternatives.
fn end_branches(alloc: Global, within: Within, last: Expr, token: Token) -> Result<Next, Stop>
    ensures { Gives result (close within.frames (choice_with within.level.branches within.level.error last) token.kind token.end) }
{
    let Within { frames, level } = within;
    let body = choice_of(level, last)?;
    close(alloc, frames, body, token)
}

/// Takes the token behind an alternative that is whole.
#[tactic(auto, unfolding(crate::specs::reader::BodySteps::after_seq))]
pub fn after_seq(alloc: Global, within: Within, body: Expr, token: Token) -> Result<Next, Stop>
    ensures { Gives result (after_seq within.frames within.level body token.kind token.end) }
{
    match token.kind {
        TokenKind::Bar => next_branch(alloc, within, body, false),
        TokenKind::Bang => next_branch(alloc, within, body, true),
        _ => end_branches(alloc, within, body, token),
    }
}
