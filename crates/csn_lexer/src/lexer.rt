//! The reader of tokens.

ghost use Rattle.std.specs.Prelude.{◌≡◌, ℕ, ◌≤◌, ◌<◌, length};
ghost use Rattle.csn_lexer.specs.declared.token.TheConstants.{MOST_TEXT};
ghost use Rattle.csn_lexer.specs.Tokens.{IsNext};
ghost use Rattle.csn_lexer.specs.Answer.{OnToken, OnNoToken};

use crate::gap::gap_end;
use crate::symbol::token_at;
use crate::token::{LexFault, Token};
use std::marker::Model;

/// Reads the tokens of a text one by one. It takes no memory, and looks at no byte much more than
/// once.
#[derive(Drop)]
pub struct Lexer<'a> {
    text: &'a [u8],
    place: usize,
}

impl<'a> Model for Lexer<'a> {
    ghost use Rattle.std.specs.Prelude.{◌≤◌, length};
    ghost use Rattle.csn_lexer.specs.Cursor.{Cursor};
    ghost use Rattle.csn_lexer.specs.declared.token.TheConstants.{MOST_TEXT};

    ghost Value = { Cursor };

    ghost view = { λ l. record { text = l.text.now; place = l.place } };

    ghost invariant = { λ l. (length l.text.now ≤ MOST_TEXT) × (l.place ≤ length l.text.now) };
}

impl<'a> Lexer<'a> {
    /// A lexer in front of the text's first byte.
    pub fn new(text: &'a [u8]) -> Lexer<'a>
        requires { length text.now ≤ MOST_TEXT }
        ensures { result ≡ record { text = text.now; place = 0 } }
    {
        Lexer { text, place: 0 }
    }

    /// The next token, or `None` at the end of the text. A byte that begins no token is a fault at
    /// its place. After the end or a fault the lexer gives the same answer from then on.
    pub fn next(&mut self) -> Result<Option<Token>, LexFault>
        ensures next { IsNext self.old.text self.old.place result }
        ensures text { self.new.text ≡ self.old.text }
        ensures moves { OnToken result (λ t. self.new.place ≡ t.end) }
        ensures rises { OnToken result (λ t. (self.old.place ≤ t.start) × (t.start < t.end) × (t.end ≤ length self.old.text)) }

        // So it gives the same answer from then on.
        ensures stays { OnNoToken result (self.new ≡ self.old) }
    {
        let start = gap_end(self.text, self.place);
        if start == self.text.len() {
            return Ok(None);
        }
        match token_at(self.text, start) {
            Some(token) => {
                self.place = token.end as usize;
                Ok(Some(token))
            }
            None => Err(LexFault {
                place: start as u32,
            }),
        }
    }
}
