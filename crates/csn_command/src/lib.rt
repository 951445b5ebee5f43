//! The words of a run: the command table, and the row of it that the words are.
#![tactic(auto)]

mod command;
mod command_line;

pub use command::{Command, PairWords, RuleCommand, RuleReport, RuleWords, command_of};
pub use command_line::read_words;
