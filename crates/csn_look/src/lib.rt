//! Look-ahead sets of the nodes of a description, and the sets and words that they are told in.
#![tactic(auto)]

mod blocks;
mod follow;
mod following;
mod full;
mod hand_down;
mod key_marks;
mod key_products;
mod key_rows;
mod key_set;
mod key_table;
mod key_tables;
mod known;
pub mod laws;
mod look;
mod marks;
mod node_sets;
mod octet_set;
mod reach;
mod sizes;
mod starts;
mod symbol_set;
mod table_maker;
mod word;

pub use follow::Follow;
pub use key_set::KeySet;
pub use key_table::{Begins, KeyTable, Stands};
pub use key_tables::KeyTables;
pub use look::Look;
pub use octet_set::OctetSet;
pub use reach::Reach;
pub use symbol_set::{Sign, SymbolSet};
pub use word::{Key, MOST_WORD, PLACES, Word};
