//! Why a rule has no plan, and what the nodes of a rule are, in words for people.
#![tactic(auto)]

mod alike;
mod around;
mod asked;
mod checking;
mod conflicts;
mod described;
mod example;
mod facts;
mod kind;
mod layout;
mod listing;
mod nodes;
mod path;
mod refusals;
mod sizes;
mod spot;
mod syntax;
mod telling;
mod tokens;
mod trial;
mod words;

pub use asked::Asked;
pub use checking::check;
pub use facts::{NodeFacts, facts_of};
pub use kind::NodeKind;
pub use listing::list_nodes;
pub use spot::Spot;
