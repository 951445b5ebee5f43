//! What tells apart the objects that show trees.

ghost use Rattle.std.specs.Prelude.{◌≡◌, ℕ, codes, IfOk, IfErr};
ghost use Rattle.serde_json.specs.Data.{Data, string};
ghost use Rattle.csn_json.specs.Reading.{with_tag};
ghost use Rattle.csn_json.specs.Pieces.{Tells, TellsTag};

use crate::fault::JsonFault;
use crate::piece::Piece;
use csn_desc::{Label, LabelFault, Shape, Tree};
use std::alloc::Global;

/// The number of an alternative, or the label of a labelled part.
#[derive(Drop)]
pub(crate) enum Tag {
    Numbered(u16),
    Labelled(Label),
}

/// The tag that a value under a key is, if it is one.
pub(crate) fn tag_of(alloc: Global, key: &str, piece: &Piece) -> Result<Option<Tag>, JsonFault>
    ensures ok { (round : ℕ) (value : Data) → Tells round piece.now value → IfOk result (λ found. TellsTag key.now found value) }
    ensures memory { IfErr result (λ fault. fault ≡ JsonFault.NoMemory) }
{
    match (key, piece) {
        ("alt", Piece::Number(number)) => Ok(Some(Tag::Numbered(*number))),
        ("label", Piece::Text(words)) => label_tag(alloc, words),
        _ => Ok(None),
    }
}

// The label that a string spells, if it spells one.
fn label_tag(alloc: Global, words: &str) -> Result<Option<Tag>, JsonFault>
    ensures ok { IfOk result (λ found. TellsTag (codes "label") found (string words.now)) }
    ensures memory { IfErr result (λ fault. fault ≡ JsonFault.NoMemory) }
{
    match Label::new(alloc, words.as_bytes()) {
        Ok(label) => Ok(Some(Tag::Labelled(label))),
        Err(LabelFault::BadLabel) => Ok(None),
        Err(LabelFault::NoMemory) => Err(JsonFault::NoMemory),
    }
}

/// The alternative or labelled part with this tag and this tree.
pub(crate) fn with_tag(alloc: Global, tag: Tag, tree: Tree) -> Result<Tree, JsonFault>
    ensures ok { IfOk result (λ whole. whole ≡ with_tag tag tree) }
    ensures memory { IfErr result (λ fault. fault ≡ JsonFault.NoMemory) }
{
    let inside = Box::new(alloc, tree)?;
    match tag {
        Tag::Numbered(number) => Ok(Tree {
            shape: Shape::Alt(number, inside),
        }),
        Tag::Labelled(label) => Ok(Tree {
            shape: Shape::Named(label, inside),
        }),
    }
}
