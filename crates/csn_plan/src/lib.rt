//! From the text of a description to the plan of a rule, with the openings of its nodes, or to the reason why it has none.
#![tactic(auto)]

mod compiling;
mod ended;
mod entries;
mod numbers;
mod text_plan;

pub use compiling::{
    Compiled, MOST_DESCRIPTION, NoPlan, certified_text, compile, described_text, plan_text,
    push_certified, push_reason,
};
pub use ended::Ended;
pub use entries::{plan_of_entry, plans_of_entries};
pub use numbers::{push_number, push_numbers};
pub use text_plan::TextPlan;
