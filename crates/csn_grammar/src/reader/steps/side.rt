//! The beginning of a side.

ghost use Rattle.std.specs.Prelude.{◌≡◌};
ghost use Rattle.csn_lexer.specs.declared.token.TokenKind.{TokenKind};
ghost use Rattle.csn_grammar.specs.reader.Gives.{Gives};
ghost use Rattle.csn_grammar.specs.FormView.{form_view};
ghost use Rattle.csn_grammar.specs.reader.BodySteps.{open_frame, word_mode, begin_side};

use crate::expr::{Expr, Form, MOST_OPEN, Span};
use crate::reader::body::{Frame, Mode, Next, Opening, Within};
use crate::reader::piece::Piece;
use crate::reader::spellings::word_form;
use crate::reader::steps::level::{fresh, gives_up, goes};
use crate::reader::stop::Stop;
use csn_lexer::TokenKind;
use std::alloc::Global;

/// Opens braces or a labelled part, where there is room for one more inside those that are open.
#[tactic(auto, unfolding(crate::specs::reader::BodySteps::open_frame))]
pub fn open_frame(alloc: Global, within: Within, start: u32, opening: Opening) -> Result<Next, Stop>
    ensures { Gives result (open_frame within.frames within.level start opening) }
{
    if within.frames.len() >= MOST_OPEN {
        return gives_up(within, Stop::Refused);
    }
    let Within { frames, level } = within;
    let frames = frames.push(Frame {
        start,
        opening,
        level,
    })?;
    let inner = Within {
        frames,
        level: fresh(alloc),
    };
    Ok(goes(inner, Mode::Side))
}

// What may come behind a side that is one word.
fn word_mode(span: Span, form: Form) -> Mode
    ensures { result ≡ word_mode span.start span.end (form_view form) }
{
    match form {
        Form::Bit | Form::Octet => Mode::Base(Expr { span, form }),
        _ => Mode::Done(Expr { span, form }),
    }
}

// Takes a word, which is a side alone.
#[tactic(auto, unfolding(crate::specs::reader::BodySteps::begin_side))]
fn begin_word(alloc: Global, within: Within, piece: Piece<'_>) -> Result<Next, Stop>
    ensures { Gives result (begin_side within.frames within.level TokenKind.Word piece.entry.token.start piece.entry.token.end piece.entry.text.now) }
{
    let span = Span {
        start: piece.token.start,
        end: piece.token.end,
    };
    match word_form(alloc, piece.text) {
        Ok(form) => Ok(goes(within, word_mode(span, form))),
        Err(stop) => gives_up(within, stop),
    }
}

/// Takes the token that begins a side.
#[tactic(auto, unfolding(crate::specs::reader::BodySteps::begin_side))]
pub fn begin_side(alloc: Global, within: Within, piece: Piece<'_>) -> Result<Next, Stop>
    ensures { Gives result (begin_side within.frames within.level piece.entry.token.kind piece.entry.token.start piece.entry.token.end piece.entry.text.now) }
{
    let token = piece.token;
    match token.kind {
        TokenKind::Word => begin_word(alloc, within, piece),
        TokenKind::Less => Ok(goes(within, Mode::Less(token.start))),
        TokenKind::BraceLeft => open_frame(alloc, within, token.start, Opening::Brace),
        _ => gives_up(within, Stop::Refused),
    }
}
