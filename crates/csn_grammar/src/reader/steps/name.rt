//! The words between `<` and `>`, or `<` and `:`.

ghost use Rattle.std.specs.Prelude.{◌≡◌, ◌∷◌, ◌++◌, Some};
ghost use Rattle.csn_lexer.specs.declared.token.TokenKind.{TokenKind};
ghost use Rattle.csn_grammar.specs.ExprV.{expr, name};
ghost use Rattle.csn_grammar.specs.reader.Gives.{Gives};
ghost use Rattle.csn_grammar.specs.reader.BodySteps.{first_word, after_words};

use crate::expr::{Expr, Form, Span};
use crate::reader::body::{Mode, Next, Opening, Within};
use crate::reader::piece::Piece;
use crate::reader::steps::level::{gives_up, goes, goes_on};
use crate::reader::steps::side::open_frame;
use crate::reader::stop::Stop;
use csn_desc::Label;
use csn_lexer::TokenKind;
use std::alloc::Global;

// A name of one word, which may go on.
fn one_word(alloc: Global, start: u32, piece: Piece<'_>) -> Result<Mode, Stop>
    requires { piece.token.kind ≡ TokenKind.Word }
    ensures { Gives result (Some (Mode.Name start piece.entry.text.now)) }
{
    let words = Label::of_word(alloc, piece.text)?;
    Ok(Mode::Name { start, words })
}

// A name with one word more, which may go on.
fn more_words(start: u32, words: Label, piece: Piece<'_>) -> Result<Mode, Stop>
    requires { piece.token.kind ≡ TokenKind.Word }
    ensures { Gives result (Some (Mode.Name start (words ++ 32 ∷ piece.entry.text.now))) }
{
    let words = words.and(piece.text)?;
    Ok(Mode::Name { start, words })
}

// A name that is whole, which ends before the place `end`.
fn whole_name(start: u32, words: Label, end: u32) -> Mode
    ensures { result ≡ Mode.Base (expr start end (name words)) }
{
    Mode::Base(Expr {
        span: Span { start, end },
        form: Form::Name(words),
    })
}

/// Takes the token behind `<`.
#[tactic(auto, unfolding(crate::specs::reader::BodySteps::first_word))]
pub fn first_word(alloc: Global, within: Within, start: u32, piece: Piece<'_>) -> Result<Next, Stop>
    ensures { Gives result (first_word within.frames within.level start piece.entry.token.kind piece.entry.text.now) }
{
    match piece.token.kind {
        TokenKind::Word => goes_on(within, one_word(alloc, start, piece)),
        _ => gives_up(within, Stop::Refused),
    }
}

/// Takes the token behind `<` and words.
#[tactic(auto, unfolding(crate::specs::reader::BodySteps::after_words))]
pub fn after_words(
    alloc: Global,
    within: Within,
    piece: Piece<'_>,
    start: u32,
    words: Label,
) -> Result<Next, Stop>
    ensures { Gives result (after_words within.frames within.level start words piece.entry.token.kind piece.entry.token.end piece.entry.text.now) }
{
    match piece.token.kind {
        TokenKind::Word => goes_on(within, more_words(start, words, piece)),
        TokenKind::Greater => Ok(goes(within, whole_name(start, words, piece.token.end))),
        TokenKind::Colon => open_frame(alloc, within, start, Opening::Label(words)),
        _ => gives_up(within, Stop::Refused),
    }
}
