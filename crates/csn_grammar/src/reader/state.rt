//! Where the reader stands in a text.

ghost use Rattle.std.specs.Prelude.{◌≡◌, [], ◌∷◌, ◌++◌, Some};
ghost use Rattle.csn_grammar.specs.reader.Gives.{Gives};
ghost use Rattle.csn_grammar.specs.reader.RuleSteps.{reading, after_body, between_step, less_step, name_step, named_step, reader_step};

use crate::expr::Span;
use crate::reader::body::{Body, Mode, Next};
use crate::reader::piece::Piece;
use crate::reader::steps::{body_of, body_step};
use crate::reader::stop::Stop;
use crate::rules::{Rule, RulesRead};
use csn_desc::Label;
use csn_lexer::{Token, TokenKind};
use std::alloc::Global;

/// Where the reader stands.
#[derive(Drop)]
pub enum State {
    /// Between rules.
    Between,
    /// Behind the `<` of a rule, at this place.
    Less(u32),
    /// Behind words of its name.
    Name { start: u32, words: Label },
    /// Behind its `< name >`.
    Named { start: u32, name: Label },
    /// In its body.
    Body { start: u32, name: Label, body: Body },
}

/// The rules that are whole, and where the reader stands.
#[derive(Drop)]
pub struct Reader {
    pub rules: RulesRead,
    pub state: State,
}

impl Reader {
    /// A reader in front of a text.
    pub fn new(alloc: Global) -> Reader
        ensures { result ≡ record { rules = []; state = State.Between } }
    {
        Reader {
            rules: RulesRead::new(alloc),
            state: State::Between,
        }
    }
}

fn between_step(rules: RulesRead, token: Token) -> Result<Reader, Stop>
    ensures { Gives result (between_step rules token.kind token.start) }
{
    match token.kind {
        TokenKind::Less => Ok(Reader {
            rules,
            state: State::Less(token.start),
        }),
        _ => Err(Stop::Refused),
    }
}

fn less_step(alloc: Global, rules: RulesRead, start: u32, piece: Piece<'_>) -> Result<Reader, Stop>
    ensures { Gives result (less_step rules start piece.entry.token.kind piece.entry.text.now) }
{
    match piece.token.kind {
        TokenKind::Word => {
            let words = Label::of_word(alloc, piece.text)?;
            Ok(Reader {
                rules,
                state: State::Name { start, words },
            })
        }
        _ => Err(Stop::Refused),
    }
}

fn named_step(
    alloc: Global,
    rules: RulesRead,
    start: u32,
    name: Label,
    kind: TokenKind,
) -> Result<Reader, Stop>
    ensures { Gives result (named_step rules start name kind) }
{
    match kind {
        TokenKind::Define => Ok(Reader {
            rules,
            state: State::Body {
                start,
                name,
                body: body_of(alloc),
            },
        }),
        _ => Err(Stop::Refused),
    }
}

fn name_step(rules: RulesRead, start: u32, words: Label, piece: Piece<'_>) -> Result<Reader, Stop>
    ensures { Gives result (name_step rules start words piece.entry.token.kind piece.entry.text.now) }
{
    let state = match piece.token.kind {
        TokenKind::Word => State::Name {
            start,
            words: words.and(piece.text)?,
        },
        TokenKind::Greater => State::Named { start, name: words },
        _ => return Err(Stop::Refused),
    };
    Ok(Reader { rules, state })
}

// Ends a rule.
fn end_rule(mut rules: RulesRead, rule: Rule) -> Result<Reader, Stop>
    ensures { Gives result (reading (rules ++ rule ∷ []) State.Between) }
{
    rules.add(rule)?;
    Ok(Reader {
        rules,
        state: State::Between,
    })
}

// Goes on as the token in the body of a rule leads, which ends before the place `end`.
fn in_body(rules: RulesRead, start: u32, name: Label, next: Next, end: u32) -> Result<Reader, Stop>
    ensures { Gives result (after_body rules start name end (Some next)) }
{
    match next {
        Next::Goes(body) => Ok(Reader {
            rules,
            state: State::Body { start, name, body },
        }),
        Next::Ends(body) => {
            let span = Span { start, end };
            end_rule(rules, Rule { name, span, body })
        }
    }
}

/// Takes one token.
pub fn reader_step(alloc: Global, reader: Reader, piece: Piece<'_>) -> Result<Reader, Stop>
    ensures { Gives result
        (reader_step reader.rules reader.state piece.entry.token.kind piece.entry.token.start piece.entry.token.end piece.entry.text.now) }
{
    let Reader { rules, state } = reader;
    match state {
        State::Between => between_step(rules, piece.token),
        State::Less(start) => less_step(alloc, rules, start, piece),
        State::Name { start, words } => name_step(rules, start, words, piece),
        State::Named { start, name } => { named_step(alloc, rules, start, name, piece.token.kind) }
        State::Body { start, name, body } => {
            let next = body_step(alloc, body, piece)?;
            in_body(rules, start, name, next, piece.token.end)
        }
    }
}
