//! Lines of `write` and `unjson`: a tree in, its block or its first misfit out.

ghost use Rattle.std.specs.Prelude.{◌≡◌, ◌<◌, ◌≤◌, ◌⊎◌, ◌++◌, ◌∷◌, [], List, ℕ, codes, length, IfOk, IfErr, IfNone, IfSome, OnOk, OnErr};
ghost use Rattle.csn_bits.specs.Line.{written};
ghost use Rattle.csn_encode.specs.declared.misfit.Misfit.{Misfit};
ghost use Rattle.csn_desc.specs.TreeV.{TreeV};
ghost use Rattle.csn_encode.specs.Encoding.{IsBlockOf, IsFaultOf};
ghost use Rattle.csn_json.specs.Forms.{text_in};
ghost use Rattle.csn_command.specs.declared.command.RuleCommand.{RuleCommand};
ghost use Rattle.csn_lines.specs.declared.lines.TheConstants.{MOST_INPUT};
ghost use Rattle.csn_plan.specs.Compiled.{line_of};
ghost use Rattle.csn_lines.specs.LineState.{nothing_kept};
ghost use Rattle.csn_lines.specs.Lines.{is_refusal, is_refused};
ghost use Rattle.csn_lines.specs.Language.{of_plan};
ghost use Rattle.csn_lines.specs.OutLine.{Reads, TellsJsonFault, WritesLine, misfit_text, path_text, why_text};
ghost use Rattle.csn_lines.specs.Work.{answering};

use crate::answers::answer_text_fault;
use crate::laws::known;
use crate::lines::{Answered, LineResult};
use crate::whole_lines::WholeLineCommand;
use csn_bits::Bits;
use csn_certify::{Plan, Steps};
use csn_desc::Tree;
use csn_encode::{EncodeFault, Misfit, MisfitWhy, Path, encode, encode_json, encode_text};
use csn_json::{JsonFault, read_json};
use csn_movetext::TreeForm;
use csn_plan::{TextPlan, push_number, push_numbers};
use csn_treetext::read_tree;
use std::alloc::{AllocError, Global};
use std::marker::Brand;
use std::sync::ledger::{Blank, Ledger};

/// Writes the answer to a tree that has a block.
fn answer_block(alloc: Global, bits: &Bits, out: &mut Vec<u8>) -> Result<(), AllocError>
    ensures ok { OnOk result (out.new.items ≡ out.old.items ++ (codes "ok " ++ written bits.now)) }
    ensures err { OnErr result ((tail : List ℕ) × (out.new.items ≡ out.old.items ++ tail)) }
{
    let Ok(line) = bits.to_hex_line(alloc) else {
        return Err(AllocError);
    };
    out.extend_from_slice(b"ok ")?;
    out.extend_from_slice(&line)
}

/// Writes the way to the tree that misses.
fn push_path(path: &Path, out: &mut Vec<u8>) -> Result<(), AllocError>
    ensures ok { OnOk result (out.new.items ≡ out.old.items ++ path_text path.now) }
    ensures err { OnErr result ((tail : List ℕ) × (out.new.items ≡ out.old.items ++ tail)) }
{
    if path.len() == 0 {
        return Ok(out.push(b'/')?);
    }
    for at in 0..path.len() {
        out.push(b'/')?;
        push_number(out, path.get(at))?;
    }
    Ok(())
}

/// Writes the name of a reason, and behind it what was wanted and what was found.
fn push_counted(name: &[u8], wanted: u32, found: u32, out: &mut Vec<u8>) -> Result<(), AllocError>
    ensures ok { OnOk result (out.new.items ≡ out.old.items ++ line_of name.now (wanted ∷ found ∷ [])) }
    ensures err { OnErr result ((tail : List ℕ) × (out.new.items ≡ out.old.items ++ tail)) }
{
    out.extend_from_slice(name)?;
    push_numbers(&[wanted, found], out)
}

/// The name of a reason, and what was wanted and found, where it tells that.
fn told_by(why: MisfitWhy) -> (&'static [u8], Option<(u32, u32)>)
    ensures name { IfNone result.1 (why_text why ≡ result.0.now) }
    ensures counted { IfSome result.1 (λ counts. why_text why ≡ line_of result.0.now (counts.0 ∷ counts.1 ∷ [])) }
{
    match why {
        MisfitWhy::WrongKind => (b"WrongKind", None),
        MisfitWhy::WrongLabel => (b"WrongLabel", None),
        MisfitWhy::WrongCount { wanted, found } => (b"WrongCount", Some((wanted, found))),
        MisfitWhy::WrongWidth { wanted, found } => (b"WrongWidth", Some((wanted, found))),
        MisfitWhy::WrongSpare => (b"WrongSpare", None),
        MisfitWhy::NoSuchAlternative => (b"NoSuchAlternative", None),
        MisfitWhy::WindowLength { wanted, found } => (b"WindowLength", Some((wanted, found))),
        MisfitWhy::TooManyBits => (b"TooManyBits", None),
    }
}

/// Writes why a tree misses.
fn push_why(why: MisfitWhy, out: &mut Vec<u8>) -> Result<(), AllocError>
    ensures ok { OnOk result (out.new.items ≡ out.old.items ++ why_text why) }
    ensures err { OnErr result ((tail : List ℕ) × (out.new.items ≡ out.old.items ++ tail)) }
{
    let (name, counts) = told_by(why);
    match counts {
        Some((wanted, found)) => push_counted(name, wanted, found, out),
        None => out.extend_from_slice(name),
    }
}

/// Writes where a tree misses, and why.
fn answer_misfit(misfit: &Misfit, out: &mut Vec<u8>) -> Result<(), AllocError>
    ensures ok { OnOk result (out.new.items ≡ out.old.items ++ misfit_text misfit.now.path misfit.now.why) }
    ensures err { OnErr result ((tail : List ℕ) × (out.new.items ≡ out.old.items ++ tail)) }
{
    out.extend_from_slice(b"no ")?;
    push_path(&misfit.path, out)?;
    out.push(b' ')?;
    push_why(misfit.why, out)
}

/// Writes the answer to a tree that no block has.
fn answer_no_block(fault: EncodeFault, out: &mut Vec<u8>) -> Result<(), AllocError>
    ensures ok { OnOk result ((misfit : Misfit) × (fault ≡ EncodeFault.Misfit misfit)
        × (out.new.items ≡ out.old.items ++ misfit_text misfit.path misfit.why)) }
    ensures err { OnErr result ((tail : List ℕ) × (out.new.items ≡ out.old.items ++ tail)) }
{
    match fault {
        EncodeFault::Misfit(misfit) => answer_misfit(&misfit, out),
        EncodeFault::NoMemory => Err(AllocError),
    }
}

/// The block that has the tree of a line in a form, written along the line; with a counter of steps.
fn block_along<L: Ledger>(
    alloc: Global,
    plan: &Plan,
    form: TreeForm,
    line: &[u8],
    blank: Blank,
) -> Option<Bits>
    requires name { blank.name ≡ L.name }
    requires parts { blank.parts ≡ L.parts }
    requires some { 0 < blank.parts }
    ensures { IfSome result (λ bits. (t : TreeV) × (line.now ≡ text_in form t) × IsBlockOf plan.now t bits) }
{
    let mut steps = Steps::<L>::new(blank);
    match form {
        TreeForm::Text => encode_text(alloc, plan, line, &mut steps),
        TreeForm::Json => encode_json(alloc, plan, line, &mut steps),
    }
}

/// The block that has the tree of a line in a form, written without the tree.
fn block_of_line(alloc: Global, plan: &Plan, form: TreeForm, line: &[u8]) -> Option<Bits>
    ensures { IfSome result (λ bits. (t : TreeV) × (line.now ≡ text_in form t) × IsBlockOf plan.now t bits) }
{
    block_along::<Brand>(alloc, plan, form, line, Blank::new(1))
}

/// Writes the answer to a line that is no tree in JSON.
fn answer_json_fault(fault: JsonFault, out: &mut Vec<u8>) -> Result<(), AllocError>
    ensures ok { OnOk result ((answer : List ℕ) × TellsJsonFault fault answer × (out.new.items ≡ out.old.items ++ answer)) }
    ensures err { OnErr result ((tail : List ℕ) × (out.new.items ≡ out.old.items ++ tail)) }
{
    match fault {
        JsonFault::NotJson => out.extend_from_slice(b"bad 1"),
        JsonFault::NotTree => out.extend_from_slice(b"bad 2"),
        JsonFault::NoMemory => Err(AllocError),
    }
}

/// The tree that a line is in a form. Where it is none, the answer to it is written.
fn tree_of_line(
    alloc: Global,
    form: TreeForm,
    line: &[u8],
    out: &mut Vec<u8>,
) -> Result<Option<Tree>, AllocError>
    requires fits { length line.now ≤ MOST_INPUT }
    ensures ok { IfOk result (λ found. Reads form line.now found out.old.items out.new.items) }
    ensures err { OnErr result ((tail : List ℕ) × (out.new.items ≡ out.old.items ++ tail)) }
{
    match form {
        TreeForm::Text => match read_tree(alloc, line) {
            Ok(tree) => return Ok(Some(tree)),
            Err(fault) => answer_text_fault(fault, out)?,
        },
        TreeForm::Json => match read_json(alloc, line) {
            Ok(tree) => return Ok(Some(tree)),
            Err(fault) => answer_json_fault(fault, out)?,
        },
    }
    Ok(None)
}

/// Answers a tree by the block that has it, or by its first misfit; with a counter of steps.
fn answer_tree<L: Ledger>(
    alloc: Global,
    plan: &Plan,
    tree: &Tree,
    out: &mut Vec<u8>,
    blank: Blank,
) -> LineResult
    requires name { blank.name ≡ L.name }
    requires parts { blank.parts ≡ L.parts }
    requires some { 0 < blank.parts }
    ensures ok { IfOk result (λ answered. (answer : List ℕ) × (out.new.items ≡ out.old.items ++ answer)
        × (((block : List ℕ) × IsBlockOf plan.now tree.now block × (answer ≡ codes "ok " ++ written block))
        ⊎ ((misfit : Misfit) × IsFaultOf plan.now tree.now (EncodeFault.Misfit misfit) × (answer ≡ misfit_text misfit.path misfit.why)))
        × (is_refused answered ≡ is_refusal answer)) }
    ensures err { OnErr result ((tail : List ℕ) × (out.new.items ≡ out.old.items ++ tail)) }
{
    let mut steps = Steps::<L>::new(blank);
    match encode(alloc, plan, tree, &mut steps) {
        Ok(bits) => {
            answer_block(alloc, &bits, out)?;
            Ok(Answered::Given)
        }
        Err(fault) => {
            answer_no_block(fault, out)?;
            Ok(Answered::Refused)
        }
    }
}

/// Answers a line by the block of its tree, which is made of it, or by what is wrong.
fn write_by_tree(
    alloc: Global,
    plan: &Plan,
    form: TreeForm,
    line: &[u8],
    out: &mut Vec<u8>,
) -> LineResult
    requires fits { length line.now ≤ MOST_INPUT }
    ensures ok { IfOk result (λ answered. (answer : List ℕ) × (out.new.items ≡ out.old.items ++ answer)
        × WritesLine form (of_plan plan.now) line.now answer × (is_refused answered ≡ is_refusal answer)) }
    ensures err { OnErr result ((tail : List ℕ) × (out.new.items ≡ out.old.items ++ tail)) }
{
    let Some(tree) = tree_of_line(alloc, form, line, out)? else {
        return Ok(Answered::Refused);
    };
    answer_tree::<Brand>(alloc, plan, &tree, out, Blank::new(1))
}

/// Answers a line by the block of its tree, which it is in a form. What the quick way along the text leaves open, the tree
/// tells.
fn write_line(
    alloc: Global,
    plan: &TextPlan,
    form: TreeForm,
    line: &[u8],
    out: &mut Vec<u8>,
) -> Result<Answered, AllocError>
    requires fits { length line.now ≤ MOST_INPUT }
    ensures ok { IfOk result (λ answered. (answer : List ℕ) × (out.new.items ≡ out.old.items ++ answer)
        × WritesLine form (of_plan plan.now) line.now answer × (is_refused answered ≡ is_refusal answer)) }
    ensures err { OnErr result ((tail : List ℕ) × (out.new.items ≡ out.old.items ++ tail)) }
{
    known();
    let certified = plan.plan();
    // its length tells that it is of a description
    let _count = certified.len();
    let Some(bits) = block_of_line(alloc, certified, form, line) else {
        return write_by_tree(alloc, certified, form, line, out);
    };
    answer_block(alloc, &bits, out)?;
    Ok(Answered::Given)
}

/// The commands `write` and `unjson`, by the plan of a rule.
#[derive(Drop)]
pub struct WriteLines<'a> {
    pub form: TreeForm,
    pub plan: &'a TextPlan,
}

impl WholeLineCommand for WriteLines<'_> {
    ghost work = { λ s. answering (RuleCommand.Write s.form) (of_plan s.plan.now) };

    ghost kept = { λ _. nothing_kept };

    fn answer(&mut self, alloc: Global, line: &[u8], out: &mut Vec<u8>) -> LineResult {
        write_line(alloc, self.plan, self.form, line, out)
    }

    fn close(&mut self, _alloc: Global, _out: &mut Vec<u8>) -> Result<(), AllocError> {
        Ok(())
    }
}
