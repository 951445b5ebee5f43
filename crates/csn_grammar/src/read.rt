//! The reading of a whole text.

ghost use Rattle.std.specs.Prelude.{◌≡◌, ◌≤◌, length, slice_range, IfSome, IfOk, IfErr, IsTrue, ◌↔◌};
ghost use Rattle.csn_lexer.specs.declared.token.TheConstants.{MOST_TEXT};
ghost use Rattle.csn_lexer.specs.Tokens.{IsLongest};
ghost use Rattle.csn_grammar.specs.Answers.{HasNoRules, OnSyntax};
ghost use Rattle.csn_grammar.specs.reader.Gives.{GivesAt};
ghost use Rattle.csn_grammar.specs.Place.{HasRules, IsSyntaxPlace};
ghost use Rattle.csn_grammar.specs.Shaped.{AreShaped};
ghost use Rattle.csn_grammar.specs.reader.RuleSteps.{finished, reader_step};

use crate::fault::GrammarFault;
use crate::reader::{Piece, Reader, State, Stop, reader_step};
use crate::rules::Rules;
use csn_lexer::{Lexer, Token};
use std::alloc::Global;

// Takes one token of the text.
fn take(alloc: Global, reader: Reader, token: Token, text: &[u8]) -> Result<Reader, GrammarFault>
    requires limit { length text.now ≤ MOST_TEXT }
    requires token { IsLongest text.now token }
    ensures { GivesAt token.start result
        (reader_step reader.rules reader.state token.kind token.start token.end
        (slice_range text.now token.start token.end)) }
{
    let piece = Piece {
        token,
        text: &text[token.start as usize..token.end as usize],
    };
    match reader_step(alloc, reader, piece) {
        Ok(next) => Ok(next),
        Err(Stop::Refused) => Err(GrammarFault::Syntax { place: token.start }),
        Err(Stop::NoMemory) => Err(GrammarFault::NoMemory),
    }
}

fn is_between(state: &State) -> bool
    ensures { IsTrue result ↔ (state.now ≡ State.Between) }
{
    matches!(state, State::Between)
}

// The rules, where a text may end.
fn finish(reader: Reader, end: u32) -> Result<Rules, GrammarFault>
    requires shaped { IfSome (finished reader.rules reader.state) AreShaped }
    ensures { GivesAt end result (finished reader.rules reader.state) }
{
    let Reader { rules, state } = reader;
    let between = is_between(&state);
    drop(state);
    if between && rules.len() > 0 {
        Ok(Rules::of(rules))
    } else {
        Err(GrammarFault::Syntax { place: end })
    }
}

/// The rules of a text. A fault of syntax comes exactly where the text has none; its place is the
/// first byte of the first token that cannot follow what stands before it, that of a byte that begins
/// no token, or the length of the text where it ends too early. Places are in bytes from 0.
pub fn read_rules(alloc: Global, text: &[u8]) -> Result<Rules, GrammarFault>
    requires { length text.now ≤ MOST_TEXT }
    ensures rules { IfOk result (λ rules. HasRules text.now rules) }
    ensures shaped { IfOk result AreShaped }
    ensures none { IfErr result (λ fault. OnSyntax fault (λ place. HasNoRules text.now)) }
    ensures place { IfErr result (λ fault. OnSyntax fault (IsSyntaxPlace text.now)) }
{
    csn_lexer::laws::one_thing_is_next();
    let mut lexer = Lexer::new(text);
    let mut reader = Reader::new(alloc);
    'tokens: loop {
        match lexer.next() {
            Ok(Some(token)) => reader = take(alloc, reader, token, text)?,
            Ok(None) => return finish(reader, text.len() as u32),
            Err(fault) => {
                drop(reader);
                return Err(GrammarFault::Syntax { place: fault.place });
            }
        }
    }
}
