//! One line of `migrate`: the old text of a tree in, its text of today or its fault out.

ghost use Rattle.std.specs.Prelude.{◌≡◌, ◌++◌, ◌≤◌, List, ℕ, IfOk, OnOk, OnErr, IsTrue, codes, length};
ghost use Rattle.csn_treetext.specs.Fits.{Fits};
ghost use Rattle.csn_treetext.specs.Place.{OldText, TreeText};
ghost use Rattle.csn_treetext.specs.Text.{text_of};
ghost use Rattle.csn_treetext.specs.declared.version.Version.TheVariants.{First, Second};
ghost use Rattle.csn_lines.specs.declared.lines.TheConstants.{MOST_INPUT};
ghost use Rattle.csn_lines.specs.LineState.{nothing_kept};
ghost use Rattle.csn_lines.specs.Lines.{is_refusal, is_refused};
ghost use Rattle.csn_lines.specs.OutLine.{MigratesLine};
ghost use Rattle.csn_lines.specs.Work.{renewing};

use crate::answers::answer_text_fault;
use crate::lines::{Answered, LineResult};
use crate::whole_lines::WholeLineCommand;
use csn_desc::{Shape, Tree};
use csn_treetext::{read_old_tree, write_tree};
use std::alloc::{AllocError, Global};

/// The most bits of a leaf that both versions write as a number.
const MOST_SHORT: u32 = 64;

/// Writes the answer to a line that is the old text of a tree.
fn answer_tree(alloc: Global, tree: &Tree, out: &mut Vec<u8>) -> Result<(), AllocError>
    requires { Fits tree.now }
    ensures ok { OnOk result ((text : List ℕ) × TreeText tree.now text × (out.new.items ≡ out.old.items ++ (codes "ok " ++ text))) }
    ensures err { OnErr result ((tail : List ℕ) × (out.new.items ≡ out.old.items ++ tail)) }
{
    let Ok(text) = write_tree(alloc, tree) else {
        return Err(AllocError);
    };
    out.extend_from_slice(b"ok ")?;
    out.extend_from_slice(&text)
}

/// Whether the text of a tree is the same in both versions: it has no leaf of more than 64 bits.
fn is_alike(tree: &Tree) -> bool
    ensures { IsTrue result → text_of First tree.now ≡ text_of Second tree.now }
{
    match &tree.shape {
        Shape::Empty => true,
        Shape::Bits(bits) => bits.len() <= MOST_SHORT,
        Shape::Row(rows) => {
            for at in 0..rows.len() {
                if !is_alike(rows.get(at)) {
                    return false;
                }
            }
            true
        }
        Shape::Alt(_, tree) => is_alike(tree),
        Shape::Named(_, tree) => is_alike(tree),
    }
}

/// Answers a line that is the old text of a tree, by itself where nothing in it changes.
fn answer_old(alloc: Global, tree: &Tree, line: &[u8], out: &mut Vec<u8>) -> Result<(), AllocError>
    requires { OldText tree.now line.now }
    ensures ok { OnOk result ((text : List ℕ) × TreeText tree.now text × (out.new.items ≡ out.old.items ++ (codes "ok " ++ text))) }
    ensures err { OnErr result ((tail : List ℕ) × (out.new.items ≡ out.old.items ++ tail)) }
{
    if !is_alike(tree) {
        return answer_tree(alloc, tree, out);
    }
    out.extend_from_slice(b"ok ")?;
    out.extend_from_slice(line)
}

/// Answers a line by the text of today of its tree.
fn migrate_line(alloc: Global, line: &[u8], out: &mut Vec<u8>) -> LineResult
    requires fits { length line.now ≤ MOST_INPUT }
    ensures ok { IfOk result (λ answered. (answer : List ℕ) × (out.new.items ≡ out.old.items ++ answer)
        × MigratesLine line.now answer × (is_refused answered ≡ is_refusal answer)) }
    ensures err { OnErr result ((tail : List ℕ) × (out.new.items ≡ out.old.items ++ tail)) }
{
    match read_old_tree(alloc, line) {
        Ok(tree) => {
            answer_old(alloc, &tree, line, out)?;
            Ok(Answered::Given)
        }
        Err(fault) => {
            answer_text_fault(fault, out)?;
            Ok(Answered::Refused)
        }
    }
}

/// The command `migrate`.
#[derive(Clone, Copy)]
pub struct Migrate;

impl WholeLineCommand for Migrate {
    ghost work = { λ _. renewing };

    ghost kept = { λ _. nothing_kept };

    fn answer(&mut self, alloc: Global, line: &[u8], out: &mut Vec<u8>) -> LineResult {
        migrate_line(alloc, line, out)
    }

    fn close(&mut self, _alloc: Global, _out: &mut Vec<u8>) -> Result<(), AllocError> {
        Ok(())
    }
}
