//! Behind an item that is whole.

ghost use Rattle.csn_grammar.specs.reader.Gives.{Gives};
ghost use Rattle.std.specs.Prelude.{◌≡◌, Some};
ghost use Rattle.csn_grammar.specs.reader.Building.{cut_with, seq_with};
ghost use Rattle.csn_grammar.specs.reader.BodySteps.{goes, with_item, without_items, begin_side, after_seq, after_item};

use crate::expr::{Expr, Exprs};
use crate::reader::body::{Joint, Level, Mode, Next, Within};
use crate::reader::build::{cut_with, seq_with};
use crate::reader::piece::Piece;
use crate::reader::steps::choice::after_seq;
use crate::reader::steps::level::{gives_up, goes_on};
use crate::reader::steps::side::begin_side;
use crate::reader::stop::Stop;
use csn_bits::NoMemory;
use csn_lexer::{Token, TokenKind};
use std::alloc::Global;

// The level with one item more.
fn with_item(level: Level, item: Expr) -> Result<Level, Stop>
    ensures { Gives result (Some (with_item level item)) }
{
    let Level {
        branches,
        error,
        mut items,
        joint,
    } = level;
    drop(joint);
    items.add(item)?;
    Ok(Level {
        branches,
        error,
        items,
        joint: Joint::Alone,
    })
}

// Begins the next item.
fn next_item(alloc: Global, within: Within, item: Expr, piece: Piece<'_>) -> Result<Next, Stop>
    ensures { Gives result (begin_side within.frames (with_item within.level item)
        piece.entry.token.kind piece.entry.token.start piece.entry.token.end piece.entry.text.now) }
{
    let Within { frames, level } = within;
    let level = with_item(level, item)?;
    begin_side(alloc, Within { frames, level }, piece)
}

// The items of the level, and what is left without them.
fn take_items(alloc: Global, within: Within) -> (Exprs, Within)
    ensures items { result.0 ≡ within.level.items }
    ensures frames { result.1.frames ≡ within.frames }
    ensures level { result.1.level ≡ without_items within.level }
{
    let Within { frames, level } = within;
    drop(level.joint);
    let rest = Level {
        branches: level.branches,
        error: level.error,
        items: Exprs::new(alloc),
        joint: Joint::Alone,
    };
    (
        level.items,
        Within {
            frames,
            level: rest,
        },
    )
}

// What may come behind a truncation, which ends before the place `end`.
fn behind_cut(items: Exprs, item: Expr, end: u32) -> Result<Mode, Stop>
    ensures { Gives result (Some (Mode.Slashes (cut_with items item end))) }
{
    Ok(Mode::Slashes(cut_with(items, item, end)?))
}

// Ends a truncation.
fn cut_items(alloc: Global, within: Within, item: Expr, end: u32) -> Result<Next, Stop>
    ensures { Gives result (goes within.frames (without_items within.level) (Mode.Slashes (cut_with within.level.items item end))) }
{
    let (items, rest) = take_items(alloc, within);
    goes_on(rest, behind_cut(items, item, end))
}

// Ends a sequence.
fn end_items(alloc: Global, within: Within, item: Expr, token: Token) -> Result<Next, Stop>
    ensures { Gives result (after_seq within.frames (without_items within.level) (seq_with within.level.items item) token.kind token.end) }
{
    let (items, rest) = take_items(alloc, within);
    match seq_with(items, item) {
        Ok(body) => after_seq(alloc, rest, body, token),
        Err(NoMemory) => gives_up(rest, Stop::NoMemory),
    }
}

/// Takes the token behind an item that is whole.
#[tactic(auto, unfolding(crate::specs::reader::BodySteps::after_item))]
pub fn after_item(alloc: Global, within: Within, item: Expr, piece: Piece<'_>) -> Result<Next, Stop>
    ensures { Gives result (after_item within.frames within.level item piece.entry.token.kind piece.entry.token.start
        piece.entry.token.end piece.entry.text.now) }
{
    let token = piece.token;
    match token.kind {
        TokenKind::Word | TokenKind::Less | TokenKind::BraceLeft => {
            next_item(alloc, within, item, piece)
        }
        TokenKind::SlashSlash => cut_items(alloc, within, item, token.end),
        _ => end_items(alloc, within, item, token),
    }
}
