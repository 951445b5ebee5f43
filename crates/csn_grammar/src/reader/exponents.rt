//! The steps through an exponent, one token each.

ghost use Rattle.std.specs.Prelude.{◌≡◌, ◌∷◌, ◌++◌};
ghost use Rattle.csn_lexer.specs.declared.token.TokenKind.{TokenKind};
ghost use Rattle.csn_grammar.specs.reader.Gives.{Gives};
ghost use Rattle.csn_grammar.specs.reader.ExponentSteps.{linear, number_at, before_step, count_step, bracket_step};
ghost use Rattle.csn_grammar.specs.reader.ExponentSteps.{star_step, number_step, summand_step, factor_step};
ghost use Rattle.csn_grammar.specs.reader.ExponentSteps.{first_word_step, words_step, product_step};
ghost use Rattle.csn_grammar.specs.reader.ExponentSteps.{factor_behind_step, summand_behind_step, exponent_step};

use crate::exponent::Exponent;
use crate::reader::piece::Piece;
use crate::reader::progress::{ExponentNext, Progress, Terms};
use crate::reader::spellings::{is_val, number_of};
use crate::reader::stop::Stop;
use csn_desc::Label;
use csn_lexer::TokenKind;
use std::alloc::Global;

// No factor and no summand.
fn no_terms(bracket: bool) -> Terms
    ensures { result ≡ record { factor = None; summand = None; bracket = bracket } }
{
    Terms {
        factor: None,
        summand: None,
        bracket,
    }
}

// The number that the token is.
fn number_at(piece: Piece<'_>) -> Option<u32>
    ensures { result ≡ number_at piece.entry.token.kind piece.entry.text.now }
{
    match piece.token.kind {
        TokenKind::Word => number_of(piece.text),
        _ => None,
    }
}

fn before_step(terms: Terms, piece: Piece<'_>) -> Result<ExponentNext, Stop>
    ensures { Gives result (before_step terms piece.entry.token.kind piece.entry.text.now) }
{
    match piece.token.kind {
        TokenKind::Word if is_val(piece.text) => Ok(ExponentNext::Goes(Progress::Val(terms))),
        _ => Err(Stop::Refused),
    }
}

fn count_step(piece: Piece<'_>) -> Result<ExponentNext, Stop>
    ensures { Gives result (count_step piece.entry.token.kind piece.entry.text.now) }
{
    match number_at(piece) {
        Some(number) => Ok(ExponentNext::Goes(Progress::Number(number))),
        None => before_step(no_terms(true), piece),
    }
}

fn bracket_step(piece: Piece<'_>) -> Result<ExponentNext, Stop>
    ensures { Gives result (bracket_step piece.entry.token.kind piece.entry.text.now) }
{
    match piece.token.kind {
        TokenKind::Star | TokenKind::StarStar => Ok(ExponentNext::Goes(Progress::Whole(
            Exponent::Any,
        ))),
        _ => count_step(piece),
    }
}

fn star_step(piece: Piece<'_>) -> Result<ExponentNext, Stop>
    ensures { Gives result (star_step piece.entry.token.kind piece.entry.text.now) }
{
    match piece.token.kind {
        TokenKind::ParenLeft => Ok(ExponentNext::Goes(Progress::StarBracket)),
        _ => match number_at(piece) {
            Some(number) => Ok(ExponentNext::Ends(Exponent::Number(number))),
            None => before_step(no_terms(false), piece),
        },
    }
}

fn number_step(number: u32, kind: TokenKind) -> Result<ExponentNext, Stop>
    ensures { Gives result (number_step number kind) }
{
    match kind {
        TokenKind::ParenRight => Ok(ExponentNext::Ends(Exponent::Number(number))),
        TokenKind::Star => Ok(ExponentNext::Goes(Progress::Before(Terms {
            factor: Some(number),
            summand: None,
            bracket: true,
        }))),
        TokenKind::Plus => Ok(ExponentNext::Goes(Progress::Summand(number))),
        _ => Err(Stop::Refused),
    }
}

fn summand_step(summand: u32, piece: Piece<'_>) -> Result<ExponentNext, Stop>
    ensures { Gives result (summand_step summand piece.entry.token.kind piece.entry.text.now) }
{
    match number_at(piece) {
        Some(factor) => Ok(ExponentNext::Goes(Progress::Factor { summand, factor })),
        None => {
            let terms = Terms {
                factor: None,
                summand: Some(summand),
                bracket: true,
            };
            before_step(terms, piece)
        }
    }
}

fn factor_step(summand: u32, factor: u32, kind: TokenKind) -> Result<ExponentNext, Stop>
    ensures { Gives result (factor_step summand factor kind) }
{
    match kind {
        TokenKind::Star => Ok(ExponentNext::Goes(Progress::Before(Terms {
            factor: Some(factor),
            summand: Some(summand),
            bracket: true,
        }))),
        _ => Err(Stop::Refused),
    }
}

fn first_word_step(alloc: Global, terms: Terms, piece: Piece<'_>) -> Result<ExponentNext, Stop>
    ensures { Gives result (first_word_step terms piece.entry.token.kind piece.entry.text.now) }
{
    match piece.token.kind {
        TokenKind::Word => {
            let words = Label::of_word(alloc, piece.text)?;
            Ok(ExponentNext::Goes(Progress::ValWords { terms, words }))
        }
        _ => Err(Stop::Refused),
    }
}

// The product of a factor and the value of a field, and a summand.
fn linear(terms: Terms, label: Label) -> Exponent
    ensures { result ≡ linear terms label }
{
    Exponent::Linear {
        m: terms.factor.unwrap_or(1),
        label,
        c: terms.summand.unwrap_or(0),
    }
}

fn words_step(terms: Terms, words: Label, piece: Piece<'_>) -> Result<ExponentNext, Stop>
    ensures { Gives result (words_step terms words piece.entry.token.kind piece.entry.text.now) }
{
    match piece.token.kind {
        TokenKind::Word => {
            let words = words.and(piece.text)?;
            Ok(ExponentNext::Goes(Progress::ValWords { terms, words }))
        }
        TokenKind::ParenRight => {
            let label = words;
            if terms.bracket {
                Ok(ExponentNext::Goes(Progress::Product { terms, label }))
            } else {
                Ok(ExponentNext::Ends(linear(terms, label)))
            }
        }
        _ => Err(Stop::Refused),
    }
}

fn product_step(terms: Terms, label: Label, kind: TokenKind) -> Result<ExponentNext, Stop>
    ensures { Gives result (product_step terms label kind) }
{
    match kind {
        TokenKind::ParenRight => Ok(ExponentNext::Ends(linear(terms, label))),
        TokenKind::Star if terms.factor.is_none() => {
            Ok(ExponentNext::Goes(Progress::FactorBehind {
                summand: terms.summand,
                label,
            }))
        }
        TokenKind::Plus if terms.summand.is_none() => {
            Ok(ExponentNext::Goes(Progress::SummandBehind {
                factor: terms.factor.unwrap_or(1),
                label,
            }))
        }
        _ => Err(Stop::Refused),
    }
}

fn factor_behind_step(
    summand: Option<u32>,
    label: Label,
    piece: Piece<'_>,
) -> Result<ExponentNext, Stop>
    ensures { Gives result (factor_behind_step summand label piece.entry.token.kind piece.entry.text.now) }
{
    match number_at(piece) {
        Some(factor) => {
            let terms = Terms {
                factor: Some(factor),
                summand,
                bracket: true,
            };
            Ok(ExponentNext::Goes(Progress::Product { terms, label }))
        }
        None => Err(Stop::Refused),
    }
}

fn summand_behind_step(factor: u32, label: Label, piece: Piece<'_>) -> Result<ExponentNext, Stop>
    ensures { Gives result (summand_behind_step factor label piece.entry.token.kind piece.entry.text.now) }
{
    match number_at(piece) {
        Some(summand) => Ok(ExponentNext::Goes(Progress::Whole(Exponent::Linear {
            m: factor,
            label,
            c: summand,
        }))),
        None => Err(Stop::Refused),
    }
}

/// Takes one token of an exponent.
pub fn exponent_step(
    alloc: Global,
    progress: Progress,
    piece: Piece<'_>,
) -> Result<ExponentNext, Stop>
    ensures { Gives result (exponent_step progress piece.entry.token.kind piece.entry.text.now) }
{
    match progress {
        Progress::Bracket => bracket_step(piece),
        Progress::Star => star_step(piece),
        Progress::StarBracket => count_step(piece),
        Progress::Number(number) => number_step(number, piece.token.kind),
        Progress::Summand(summand) => summand_step(summand, piece),
        Progress::Factor { summand, factor } => factor_step(summand, factor, piece.token.kind),
        Progress::Before(terms) => before_step(terms, piece),
        Progress::Val(terms) => match piece.token.kind {
            TokenKind::ParenLeft => Ok(ExponentNext::Goes(Progress::ValBracket(terms))),
            _ => Err(Stop::Refused),
        },
        Progress::ValBracket(terms) => first_word_step(alloc, terms, piece),
        Progress::ValWords { terms, words } => words_step(terms, words, piece),
        Progress::Product { terms, label } => product_step(terms, label, piece.token.kind),
        Progress::FactorBehind { summand, label } => factor_behind_step(summand, label, piece),
        Progress::SummandBehind { factor, label } => summand_behind_step(factor, label, piece),
        Progress::Whole(exponent) => match piece.token.kind {
            TokenKind::ParenRight => Ok(ExponentNext::Ends(exponent)),
            _ => Err(Stop::Refused),
        },
    }
}
