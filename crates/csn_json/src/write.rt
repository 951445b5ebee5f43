ghost use Rattle.std.specs.Prelude.{◌≡◌, ◌↔◌, ◌≤◌, codes, length, IsTrue, IsUtf8, IfOk, OnOk};
ghost use Rattle.csn_bits.specs.Line.{written};
ghost use Rattle.csn_bits.specs.Octets.{IsBits, most_bits};
ghost use Rattle.csn_desc.specs.Label.{IsLabel};
ghost use Rattle.csn_desc.specs.TreeV.{trees_of};
ghost use Rattle.csn_desc.specs.TreeParts.{HasTreeParts, AllHaveTreeParts};
ghost use Rattle.csn_treetext.specs.Fits.{Fits};
ghost use Rattle.serde_json.specs.Data.{Data, number as whole, string, unsigned};
ghost use Rattle.serde_json.specs.View.{view, items_view};
ghost use Rattle.csn_json.specs.JsonTree.{items_of, json_of, tagged};
ghost use Rattle.csn_json.specs.JsonText.{JsonText, WrittenJson};

use csn_bits::{Bits, NoMemory};
use csn_desc::{Label, Rows, Shape, Tree};
use csn_treetext::fits;
use serde_json::{Value, json};
use std::alloc::Global;
use std::str;

/// Whether a tree can be shown as JSON: it has at most 64 levels, and alternatives below 16,384.
pub fn json_fits(tree: &Tree) -> bool
    ensures { IsTrue result ↔ Fits tree.now }
{
    fits(tree)
}

/// The tree as JSON, with no space, and the members of each object in the order of their keys.
pub fn write_json(alloc: Global, tree: &Tree) -> Result<Vec<u8>, NoMemory>
    requires { Fits tree.now }
    ensures text { IfOk result (λ text. WrittenJson tree.now text.items) }
    ensures shows { IfOk result (λ text. JsonText tree.now text.items) }
{
    let value = value_of(alloc, tree)?;
    Ok(value.to_vec(alloc)?)
}

#[cycle(write)]
fn value_of(alloc: Global, tree: &Tree) -> Result<Value, NoMemory>
    ensures value { IfOk result (λ value. view value ≡ json_of tree.now) }
    ensures parts { OnOk result (HasTreeParts tree.now) }
{
    match &tree.shape {
        Shape::Empty => Ok(Value::Null),
        Shape::Bits(bits) => block_line(alloc, bits),
        Shape::Row(rows) => Ok(Value::Array(items_of(alloc, rows)?)),
        Shape::Alt(number, tree) => {
            let inside = value_of(alloc, tree)?;
            alternative(alloc, *number, inside)
        }
        Shape::Named(label, tree) => {
            let inside = value_of(alloc, tree)?;
            labelled(alloc, label, inside)
        }
    }
}

// The values of the trees of a row.
#[cycle(write)]
fn items_of(alloc: Global, rows: &Rows) -> Result<Vec<Value>, NoMemory>
    ensures values { IfOk result (λ items. items_view items.items ≡ items_of (trees_of rows.now)) }
    ensures parts { OnOk result (AllHaveTreeParts (trees_of rows.now)) }
{
    let mut items = Vec::new(alloc);
    for at in 0..rows.len() {
        let item = value_of(alloc, rows.get(at))?;
        items.push(item)?;
    }
    Ok(items)
}

fn block_line(alloc: Global, bits: &Bits) -> Result<Value, NoMemory>
    ensures value { IfOk result (λ value. view value ≡ string (written bits.now)) }
    ensures zeros_and_ones { IsBits bits.now }
    ensures few { length bits.now ≤ most_bits }
{
    let _count = bits.len();
    match String::from_utf8(bits.to_hex_line(alloc)?) {
        Ok(line) => Ok(Value::String(line)),
        Err(_) => unreachable!(),
    }
}

fn alternative(alloc: Global, number: u16, tree: Value) -> Result<Value, NoMemory>
    ensures { IfOk result (λ value. view value ≡ tagged (codes "alt") (whole (unsigned number)) (view tree)) }
{
    Ok(json!(in alloc; {"alt": number, "tree": tree})?)
}

fn labelled(alloc: Global, label: &Label, tree: Value) -> Result<Value, NoMemory>
    ensures value { IfOk result (λ value. view value ≡ tagged (codes "label") (string label.now) (view tree)) }
    ensures label { IsLabel label.now }
{
    match str::from_utf8(label.bytes()) {
        Ok(label) => Ok(json!(in alloc; {"label": label, "tree": tree})?),
        Err(_) => unreachable!(),
    }
}
