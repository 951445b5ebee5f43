//! What texts and lines spell: descriptions, plans and blocks.

use csn_bits::{Bits, MOST_LINE};
use csn_certify::{Plan, certify};
use csn_desc::{Desc, Reading};
use csn_grammar::read_rules;
use csn_resolve::{ResolveFault, resolve};
use std::alloc::Global;
use std::test::Fail;

/// What the rule of a name gives.
fn resolved(
    alloc: Global,
    text: &str,
    name: &str,
    reading: Reading,
) -> Result<Result<Desc, ResolveFault>, Fail> {
    if text.len() > 262_144 {
        return Err("the text is too long".into());
    }
    let rules = read_rules(alloc, text.as_bytes())?;
    Ok(resolve(alloc, &rules, name.as_bytes(), reading))
}

/// The description of the rule M.
pub(crate) fn desc_of(alloc: Global, text: &str, reading: Reading) -> Result<Desc, Fail> {
    Ok(resolved(alloc, text, "M", reading)??)
}

/// The plan of a description, as one pointer, since it is handed on.
fn certified(alloc: Global, desc: Desc) -> Result<Box<Plan>, Fail> {
    match certify(alloc, desc) {
        Ok(plan) => Ok(Box::new(alloc, plan)?),
        Err(_fault) => Err("not certified".into()),
    }
}

/// The plan of the rule of a name.
pub(crate) fn plan_of_rule(
    alloc: Global,
    text: &str,
    name: &str,
    reading: Reading,
) -> Result<Box<Plan>, Fail> {
    certified(alloc, resolved(alloc, text, name, reading)??)
}

/// The plan of the rule M, as a block that is received is read.
pub(crate) fn plan_of(alloc: Global, text: &str) -> Result<Box<Plan>, Fail> {
    plan_of_rule(alloc, text, "M", Reading::Received)
}

/// The block that a line spells.
pub(crate) fn block_of(alloc: Global, line: &str) -> Result<Bits, Fail> {
    if line.len() > MOST_LINE as usize {
        return Err("the line is too long".into());
    }
    Ok(Bits::from_hex_line(alloc, line.as_bytes())?)
}

/// The pieces that these lines spell.
pub(crate) fn pieces_of(alloc: Global, lines: &[&str]) -> Result<Vec<Bits>, Fail> {
    let mut pieces = Vec::new(alloc);
    for line in lines {
        pieces.push(block_of(alloc, line)?)?;
    }
    Ok(pieces)
}
