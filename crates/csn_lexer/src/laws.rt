//! What holds of the definitions themselves. The functions do nothing: each is there for its clause.

ghost use Rattle.csn_lexer.specs.Tokens.{TextsAreReadInOneWay, OneIsNext, SomethingIsNext};

/// A text is read as tokens in at most one way.
pub fn one_list_of_tokens()
    ensures { TextsAreReadInOneWay }
{}

/// From each place of a text on one thing stands next: a token, a byte that begins none, or the end.
pub fn one_thing_is_next()
    ensures some { SomethingIsNext }
    ensures one { OneIsNext }
{}
