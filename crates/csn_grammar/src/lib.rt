//! The grammar of CSN.1 descriptions: the rules of a text, and where a text has none.
#![tactic(auto)]

mod built_in;
pub mod examples;
mod exponent;
mod expr;
mod fault;
pub mod laws;
mod read;
mod reader;
mod rules;

pub use built_in::BuiltIn;
pub use exponent::{Exponent, MOST_DIGITS};
pub use expr::{Branch, Branches, Expr, Exprs, Form, MOST_OPEN, Span};
pub use fault::GrammarFault;
pub use read::read_rules;
pub use rules::{Rule, Rules};
