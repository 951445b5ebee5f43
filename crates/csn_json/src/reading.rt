//! Values of JSON, read along their text.

ghost use Rattle.std.specs.Prelude.{◌≡◌, ◌<◌, ◌≤◌, ◌+◌, length, Some, None, option_map, IfOk, IfErr, OnOk};
ghost use Rattle.json.specs.Json.{read_key};
ghost use Rattle.csn_desc.specs.declared.tree.TheConstants.{MOST_TREES};
ghost use Rattle.csn_treetext.specs.declared.bounds.TheConstants.{MOST_LEVELS};
ghost use Rattle.csn_json.specs.Pieces.{Stops, Tells, TellsRow, HasMembers, Takes, TakesItems, TakesMembers, NoValue, NoItems, NoMembers};

use crate::fault::JsonFault;
use crate::members::Members;
use crate::piece::{Piece, inside, longer, null_piece, number_piece, row_piece, tree_of};
use csn_desc::{Rows, Tree};
use csn_treetext::MOST_LEVELS;
use json::{Reader, Token};
use std::alloc::Global;

/// How many arrays and objects of JSON may stand in one another.
pub(crate) const MOST_DEPTH: usize = 127;

/// The next value, with so many levels round it, in which so many arrays and objects may stand in one another.
#[cycle(piece)]
pub(crate) fn piece<'a>(
    alloc: Global,
    reader: &mut Reader<'a>,
    depth: usize,
    round: u32,
) -> Result<Piece<'a>, JsonFault>
    requires round { round ≤ MOST_LEVELS }
    requires few { length reader.old ≤ MOST_TREES + 1 }
    ensures ok { IfOk result (λ piece. Takes depth reader.old reader.new (Tells round piece)) }
    ensures shorter { OnOk result (length reader.new < length reader.old) }
    ensures refused { IfErr result (λ fault. Stops fault (NoValue depth reader.old)) }
{
    let inner = inside(round);
    let Some(token) = reader.next() else {
        return Err(JsonFault::NotJson);
    };
    match token {
        Token::String(text) => Ok(Piece::Text(text)),
        Token::Number(text) => number_piece(text),
        Token::Bool(_) => Ok(Piece::Nothing),
        Token::Null => Ok(null_piece(round)),
        Token::EndObject | Token::EndArray | Token::Key(_) | Token::Bad => Err(JsonFault::NotJson),
        Token::BeginArray => {
            if depth == 0 {
                return Err(JsonFault::NotJson);
            }
            let rows = rows_of(alloc, reader, depth - 1, inner)?;
            Ok(row_piece(rows, round))
        }
        Token::BeginObject => {
            if depth == 0 {
                return Err(JsonFault::NotJson);
            }
            let members = members_of(alloc, reader, depth - 1, inner)?;
            members.piece(alloc, round)
        }
    }
}

/// The trees that the values of an array show, if each of them shows one.
#[cycle(piece)]
fn rows_of(
    alloc: Global,
    reader: &mut Reader<'_>,
    depth: usize,
    round: u32,
) -> Result<Option<Rows>, JsonFault>
    requires round { round ≤ MOST_LEVELS }
    requires few { length reader.old ≤ MOST_TREES }
    ensures ok { IfOk result (λ rows. TakesItems depth reader.old reader.new (TellsRow round rows)) }
    ensures shorter { OnOk result (length reader.new < length reader.old) }
    ensures refused { IfErr result (λ fault. Stops fault (NoItems depth reader.old)) }
{
    let mut rows = Some(Rows::new(alloc));
    'values: while !reader.take_end_array() {
        let piece = piece(alloc, reader, depth, round)?;
        let tree = tree_of(alloc, piece, round)?;
        rows = longer(rows, tree)?;
    }
    Ok(rows)
}

/// The members of an object.
#[cycle(piece)]
fn members_of(
    alloc: Global,
    reader: &mut Reader<'_>,
    depth: usize,
    round: u32,
) -> Result<Members, JsonFault>
    requires round { round ≤ MOST_LEVELS }
    requires few { length reader.old ≤ MOST_TREES }
    ensures ok { IfOk result (λ members. TakesMembers depth reader.old reader.new (HasMembers round members)) }
    ensures shorter { OnOk result (length reader.new < length reader.old) }
    ensures refused { IfErr result (λ fault. Stops fault (NoMembers depth reader.old)) }
{
    let mut members = Members::new();
    'members: while let Some(key) = next_key(reader)? {
        let piece = piece(alloc, reader, depth, round)?;
        members.put(alloc, key, piece, round)?;
    }
    Ok(members)
}

/// The next key of an object, and none at its end.
fn next_key<'a>(reader: &mut Reader<'a>) -> Result<Option<&'a str>, JsonFault>
    ensures ok { IfOk result (λ key. read_key reader.old ≡ Some (option_map (λ s. s.now) key, reader.new)) }
    ensures refused { IfErr result (λ fault. (fault ≡ JsonFault.NotJson) × (read_key reader.old ≡ None)) }
{
    match reader.next_key() {
        Ok(key) => Ok(key),
        Err(_) => Err(JsonFault::NotJson),
    }
}
