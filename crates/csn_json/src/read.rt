ghost use Rattle.std.specs.Prelude.{◌≡◌, ◌↔◌, ◌≤◌, ◌<◌, ◌++◌, ◌∷◌, [], ℕ, List, Some, None, length, map, IsTrue, IfOk, IfErr, OnOk};
ghost use Rattle.csn_bits.specs.Line.{upper};
ghost use Rattle.csn_bits.specs.declared.feed.TheConstants.{MOST_LINE};
ghost use Rattle.csn_desc.specs.declared.tree.TheConstants.{MOST_TREES};
ghost use Rattle.csn_treetext.specs.declared.bounds.TheConstants.{MOST_LEVELS};
ghost use Rattle.serde_json.specs.Data.{Data, string};
ghost use Rattle.serde_json.specs.Read.{read};
ghost use Rattle.csn_json.specs.JsonText.{JsonText, IsFaultOf};
ghost use Rattle.csn_json.specs.Reading.{IsWritten, Refuses};
ghost use Rattle.csn_json.specs.Pieces.{TellsTree, Stops};

use crate::fault::JsonFault;
use crate::piece::tree_of;
use crate::reading::{MOST_DEPTH, piece};
use csn_bits::{Bits, BitsFault, MOST_LINE};
use csn_desc::{Rows, Shape, Tree};
use json::{Reader, Scratch};
use std::alloc::Global;

/// The tree that a JSON text shows. Its objects may have their members in either order, and space may
/// stand wherever JSON has it. It is read along the text, without a value of the whole.
pub fn read_json(alloc: Global, text: &[u8]) -> Result<Tree, JsonFault>
    requires { length text.now ≤ MOST_LINE }
    ensures ok { IfOk result (λ tree. JsonText tree text.now) }
    ensures refused { IfErr result (λ fault. IsFaultOf text.now fault) }
{
    match std::str::from_utf8(text) {
        Ok(text) => read_text(alloc, text)?.ok_or(JsonFault::NotTree),
        Err(_) => Err(JsonFault::NotJson),
    }
}

// The tree that a JSON text shows, if it shows one.
fn read_text(alloc: Global, text: &str) -> Result<Option<Tree>, JsonFault>
    requires { length text.now ≤ MOST_LINE }
    ensures ok { IfOk result (λ found. (value : Data) × (read text.now ≡ Some value) × TellsTree 0 found value) }
    ensures refused { IfErr result (λ fault. Stops fault (read text.now ≡ None)) }
{
    let mut scratch = Scratch::new(alloc);
    let Ok(mut reader) = Reader::new(text, &mut scratch) else {
        return Err(JsonFault::NoMemory);
    };
    let piece = piece(alloc, &mut reader, MOST_DEPTH, 0)?;
    if reader.next().is_some() {
        return Err(JsonFault::NotJson);
    }
    tree_of(alloc, piece, 0)
}

// Adds a tree at the end of a row.
pub(crate) fn push_tree(rows: &mut Rows, tree: Tree) -> Result<(), JsonFault>
    requires { length rows.old < MOST_TREES }
    ensures ok { OnOk result (rows.new ≡ rows.old ++ tree ∷ []) }
    ensures memory { IfErr result (λ fault. fault ≡ JsonFault.NoMemory) }
{
    match rows.push(tree) {
        Ok(()) => Ok(()),
        Err(_) => Err(JsonFault::NoMemory),
    }
}

// The bits that a block line with digits in upper case spells.
fn bits_of(alloc: Global, line: &[u8]) -> Result<Bits, JsonFault>
    ensures ok { IfOk result (λ bits. IsWritten line.now bits) }
    ensures refused { IfErr result (λ fault. Refuses fault ((b : List ℕ) → IsWritten line.now b → ⊥)) }
{
    csn_bits::laws::written_is_read();
    csn_bits::laws::fault_or_block();
    if line.len() > MOST_LINE as usize || !is_upper(line) {
        return Err(JsonFault::NotTree);
    }
    match Bits::from_hex_line(alloc, line) {
        Ok(bits) => Ok(bits),
        Err(fault) => match fault {
            BitsFault::NoMemory => Err(JsonFault::NoMemory),
            _ => Err(JsonFault::NotTree),
        },
    }
}

// Whether a line has no digit in lower case.
fn is_upper(line: &[u8]) -> bool
    ensures { IsTrue result ↔ (map upper line.now ≡ line.now) }
{
    !line.iter().any(|byte| matches!(byte, b'a'..=b'f'))
}

// The tree that a string shows, if it shows one.
pub(crate) fn bits_tree(alloc: Global, line: &str) -> Result<Option<Tree>, JsonFault>
    ensures ok { (round : ℕ) → round < MOST_LEVELS → IfOk result (λ found. TellsTree round found (string line.now)) }
    ensures memory { IfErr result (λ fault. fault ≡ JsonFault.NoMemory) }
{
    match bits_of(alloc, line.as_bytes()) {
        Ok(bits) => Ok(Some(Tree {
            shape: Shape::Bits(bits),
        })),
        Err(JsonFault::NoMemory) => Err(JsonFault::NoMemory),
        Err(JsonFault::NotTree) => Ok(None),
        Err(JsonFault::NotJson) => Ok(None),
    }
}
