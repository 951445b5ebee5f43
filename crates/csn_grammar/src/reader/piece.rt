ghost use Rattle.std.specs.Prelude.{◌≤◌, length};
ghost use Rattle.csn_lexer.specs.declared.token.TheConstants.{MOST_TEXT};
ghost use Rattle.csn_grammar.specs.reader.Gives.{IsWordToken};

use csn_lexer::Token;

/// A token, and its piece of the text.
#[derive(Clone, Copy)]
pub struct Piece<'a> {
    pub token: Token,
    pub text: &'a [u8],
    ghost short: { length text.now ≤ MOST_TEXT },
    ghost word: { IsWordToken token.kind text.now },
}
