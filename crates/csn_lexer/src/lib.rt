//! The tokens of a CSN.1 description.
#![tactic(auto)]

mod gap;
pub mod laws;
mod lexer;
mod symbol;
mod token;
mod words;

pub use lexer::Lexer;
pub use token::{LexFault, MOST_TEXT, Token, TokenKind};
pub use words::is_word;
