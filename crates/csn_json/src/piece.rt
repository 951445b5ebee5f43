//! What a value of JSON is to a reader of trees.

ghost use Rattle.std.specs.Prelude.{◌≡◌, ◌+◌, ◌<◌, ◌≤◌, Some, None, ℕ, length, IfOk, IfErr, IfSome};
ghost use Rattle.csn_desc.specs.declared.tree.TheConstants.{MOST_TREES};
ghost use Rattle.csn_treetext.specs.declared.bounds.TheConstants.{MOST_LEVELS};
ghost use Rattle.serde_json.specs.Data.{Data, Num, unsigned, null, number, array, Items};
ghost use Rattle.serde_json.specs.Read.{number_of};
ghost use Rattle.csn_json.specs.Pieces.{inside, then_item, Tells, TellsTree, TellsRow};

use crate::fault::JsonFault;
use crate::number::{Number, read_number};
use crate::read::{bits_tree, push_tree};
use csn_desc::{Rows, Shape, Tree};
use csn_treetext::{GREATEST_ALTERNATIVE, MOST_LEVELS};
use std::alloc::Global;

/// What a value is: a string, the number of an alternative, another one that shows a tree, or none of these.
#[derive(Drop)]
pub(crate) enum Piece<'a> {
    Text(&'a str),
    Number(u16),
    Tree(Tree),
    Nothing,
}

/// How many levels are round what stands inside a value; never more than there may be.
pub(crate) fn inside(round: u32) -> u32
    requires { round ≤ MOST_LEVELS }
    ensures value { result ≡ inside round }
    ensures within { result ≤ MOST_LEVELS }
{
    (round + 1).min(MOST_LEVELS)
}

/// A value that shows this tree, where there is room for it.
fn with_room<'a>(tree: Tree, round: u32) -> Piece<'a>
    ensures room { round < MOST_LEVELS → result ≡ Piece.Tree tree }
    ensures full { MOST_LEVELS ≤ round → result ≡ Piece.Nothing }
{
    if round < MOST_LEVELS {
        Piece::Tree(tree)
    } else {
        Piece::Nothing
    }
}

/// The value `null`.
pub(crate) fn null_piece<'a>(round: u32) -> Piece<'a>
    requires { round ≤ MOST_LEVELS }
    ensures { Tells round result null }
{
    with_room(
        Tree {
            shape: Shape::Empty,
        },
        round,
    )
}

/// A number, which a text of JSON's grammar writes.
pub(crate) fn number_piece<'a>(text: &str) -> Result<Piece<'a>, JsonFault>
    ensures ok { IfOk result (λ piece. (n : Num) × (number_of text.now ≡ Some n) × ((round : ℕ) → Tells round piece (number n))) }
    ensures none { IfErr result (λ fault. (fault ≡ JsonFault.NotJson) × (number_of text.now ≡ None)) }
{
    match read_number(text) {
        Some(Number::Whole(whole)) => Ok(whole_piece(whole)),
        Some(Number::Other) => Ok(Piece::Nothing),
        None => Err(JsonFault::NotJson),
    }
}

/// A number that is whole and not below zero.
fn whole_piece<'a>(whole: u64) -> Piece<'a>
    ensures { (round : ℕ) → Tells round result (number (unsigned whole)) }
{
    if whole <= u64::from(GREATEST_ALTERNATIVE) {
        Piece::Number(whole as u16)
    } else {
        Piece::Nothing
    }
}

/// An array, from the trees of its values.
pub(crate) fn row_piece<'a>(rows: Option<Rows>, round: u32) -> Piece<'a>
    requires { round ≤ MOST_LEVELS }
    ensures { (values : Items) → TellsRow (inside round) rows values → Tells round result (array values) }
{
    match rows {
        Some(rows) => with_room(
            Tree {
                shape: Shape::Row(rows),
            },
            round,
        ),
        None => Piece::Nothing,
    }
}

/// The tree that a value shows with so many levels round it.
pub(crate) fn tree_of(alloc: Global, piece: Piece, round: u32) -> Result<Option<Tree>, JsonFault>
    requires { round ≤ MOST_LEVELS }
    ensures ok { (value : Data) → Tells round piece.entry value → IfOk result (λ found. TellsTree round found value) }
    ensures memory { IfErr result (λ fault. fault ≡ JsonFault.NoMemory) }
{
    match piece {
        Piece::Text(line) if round < MOST_LEVELS => bits_tree(alloc, line),
        Piece::Text(_) => Ok(None),
        Piece::Number(_) => Ok(None),
        Piece::Tree(tree) => Ok(Some(tree)),
        Piece::Nothing => Ok(None),
    }
}

/// The trees of a row with one more, where all of them are trees.
pub(crate) fn longer(rows: Option<Rows>, tree: Option<Tree>) -> Result<Option<Rows>, JsonFault>
    requires few { IfSome rows (λ r. length r < MOST_TREES) }
    ensures ok { (round : ℕ) (values : Items) (value : Data) → TellsRow round rows values → TellsTree round tree value
        → IfOk result (λ more. TellsRow round more (then_item values value)) }
    ensures one_more { (n : ℕ) → IfSome rows (λ r. length r < n) → IfOk result (λ more. IfSome more (λ m. length m ≤ n)) }
    ensures memory { IfErr result (λ fault. fault ≡ JsonFault.NoMemory) }
{
    match rows {
        Some(mut rows) => match tree {
            Some(tree) => {
                push_tree(&mut rows, tree)?;
                Ok(Some(rows))
            }
            None => Ok(None),
        },
        None => Ok(None),
    }
}
