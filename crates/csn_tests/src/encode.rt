ghost use Rattle.std.specs.Prelude.{◌≡◌, ◌<◌};

use crate::texts::plan_of;
use csn_bits::{Bits, MOST_LINE};
use csn_certify::{Plan, Steps};
use csn_desc::Tree;
use csn_encode::{EncodeFault, Misfit, MisfitWhy, encode, encode_json, encode_text};
use csn_treetext::read_tree;
use std::alloc::Global;
use std::marker::Brand;
use std::process::Abort;
use std::sync::ledger::{Blank, Ledger};
use std::test::Fail;

const FIELDS: &str = "<M> ::= <A : bit (3)> 0 <B : bit (4)> ;";

// the tree that a text spells
fn tree_of(alloc: Global, text: &[u8]) -> Result<Tree, Fail> {
    if text.len() > MOST_LINE as usize {
        return Err("a long text".into());
    }
    Ok(read_tree(alloc, text)?)
}

// whether what was written is this block line
fn is_line(alloc: Global, written: Option<Bits>, line: &[u8]) -> Result<bool, Fail> {
    let Some(bits) = written else {
        return Ok(false);
    };
    let written = bits.to_hex_line(alloc)?;
    Ok(written.as_slice() == line)
}

// whether the tree is written as this block line
fn is_written<L: Ledger>(
    alloc: Global,
    plan: &Plan,
    tree: &Tree,
    line: &[u8],
    steps: &mut Steps<L>,
) -> Result<bool, Fail> {
    is_line(alloc, encode(alloc, plan, tree, steps).ok(), line)
}

// whether the tree of the text is written as this block line, along the text
fn is_written_along<L: Ledger>(
    alloc: Global,
    plan: &Plan,
    text: &[u8],
    line: &[u8],
    steps: &mut Steps<L>,
) -> Result<bool, Fail> {
    is_line(alloc, encode_text(alloc, plan, text, steps), line)
}

// whether no block has the tree of the text
fn none_along<L: Ledger>(alloc: Global, plan: &Plan, text: &[u8], steps: &mut Steps<L>) -> bool {
    encode_text(alloc, plan, text, steps).is_none()
}

// why and where the tree misses
fn miss_of<L: Ledger>(
    alloc: Global,
    plan: &Plan,
    tree: &Tree,
    steps: &mut Steps<L>,
) -> Option<Misfit> {
    match encode(alloc, plan, tree, steps) {
        Err(EncodeFault::Misfit(misfit)) => Some(misfit),
        _ => None,
    }
}

// the second field is a bit too wide: the third tree of the row, and there what is labelled
fn expect_wide<R: Abort>(rt: &R, misfit: &Misfit) {
    let why = MisfitWhy::WrongWidth {
        wanted: 4,
        found: 5,
    };
    assert_eq!(rt; misfit.path.len(), 2);
    let path = [misfit.path.get(0), misfit.path.get(1)];
    assert_eq!(rt; (misfit.why, path), (why, [2, 0]));
}

fn writes<L: Ledger, R: Abort>(
    rt: &R,
    alloc: Global,
    plan: &Plan,
    steps: &mut Steps<L>,
) -> Result<(), Fail> {
    let text = b"[<A>=3'5 . <B>=4'5]";
    let tree = tree_of(alloc, text)?;
    let whole = is_written(alloc, plan, &tree, b"A5", steps)?;
    let along = is_written_along(alloc, plan, text, b"A5", steps)?;
    let none = none_along(alloc, plan, b"[<A>=3'5 . <B>=5'5]", steps);
    assert_eq!(rt; (whole, along, none), (true, true, true));
    Ok(())
}

// JSON is written where it is spelled as `json` does, and left alone with a space in it
fn writes_json<L: Ledger, R: Abort>(
    rt: &R,
    alloc: Global,
    plan: &Plan,
    steps: &mut Steps<L>,
) -> Result<(), Fail> {
    let json = b"[{\"label\":\"A\",\"tree\":\"A0/3\"},null,{\"label\":\"B\",\"tree\":\"50/4\"}]";
    let spaced = b"[{\"label\":\"A\",\"tree\":\"A0/3\"}, null,{\"label\":\"B\",\"tree\":\"50/4\"}]";
    let whole = is_line(alloc, encode_json(alloc, plan, json, steps), b"A5")?;
    let none = encode_json(alloc, plan, spaced, steps).is_none();
    assert_eq!(rt; (whole, none), (true, true));
    Ok(())
}

// the tree of the text, whose second field is a bit too wide, misses there
fn misses<L: Ledger, R: Abort>(
    rt: &R,
    alloc: Global,
    plan: &Plan,
    text: &[u8],
    steps: &mut Steps<L>,
) -> Result<(), Fail> {
    let wide = tree_of(alloc, text)?;
    match miss_of(alloc, plan, &wide, steps) {
        Some(misfit) => {
            expect_wide(rt, &misfit);
            Ok(())
        }
        None => Err("it does not miss".into()),
    }
}

fn writes_or_misses<L: Ledger, R: Abort>(rt: &R, alloc: Global, blank: Blank) -> Result<(), Fail>
    requires name { blank.name ≡ L.name }
    requires parts { blank.parts ≡ L.parts }
    requires some { 0 < blank.parts }
{
    let mut steps = Steps::<L>::new(blank);
    let plan = plan_of(alloc, FIELDS)?;
    writes(rt, alloc, &plan, &mut steps)?;
    writes_json(rt, alloc, &plan, &mut steps)?;
    misses(rt, alloc, &plan, b"[<A>=3'5 . <B>=5'11]", &mut steps)
}

#[test]
fn a_tree_is_written_or_misses(rt: HostRuntime) -> Result<(), Fail> {
    writes_or_misses::<Brand, HostRuntime>(&rt, rt.alloc(), Blank::new(1))
}
