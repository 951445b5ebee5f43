//! What the companion prints: the fields of blocks, for programs and for people, and why a tree has no block.
#![tactic(auto)]

mod along;
mod blocks;
mod field_plan;
mod fields;
mod misfits;
mod nodes;
mod page;
mod page_text;
mod path;
mod table;
mod teller;
mod text;
mod trees;
mod wanted;
mod writer;

pub use blocks::BlockTeller;
pub use field_plan::FieldPlan;
pub use fields::FieldLines;
pub use page::{Drawing, push_foot, push_head};
pub use path::PathText;
pub use table::Table;
pub use teller::{Answered, LineTeller};
pub use trees::TreeTeller;
pub use writer::{LeafWriter, Standing, Stopped};
