ghost use Rattle.std.specs.Prelude.{◌≡◌, ℕ, ◌<◌, length, slice_get, Some, IfOk, option_copied};
ghost use Rattle.csn_fields.specs.Alternatives.{HasAlternatives};
ghost use Rattle.csn_fields.specs.Numbers.{HasNumbers, Numbered, number_at};
ghost use Rattle.csn_fields.specs.Outlines.{outline_at};

use crate::outline::Outline;
use crate::outlines::outlines;
use csn_bits::NoMemory;
use csn_certify::{Plan, Steps};
use csn_desc::{Node, Parts};
use std::alloc::Global;
use std::marker::{Brand, Model};
use std::sync::ledger::{Blank, Ledger};

/// For each node of a plan its number, where it is an alternative of a choice, and its outline, where it has one. They are
/// made once for a plan.
#[derive(Drop)]
pub struct Alternatives {
    numbers: Vec<Option<u16>>,
    outlines: Vec<Option<Outline>>,
}

impl Model for Alternatives {
    ghost use Rattle.csn_fields.specs.Alternatives.{AlternativesV};

    ghost Value = { AlternativesV };

    ghost view = { λ a. record { numbers = a.numbers.items; outlines = a.outlines.items } };
}

impl Alternatives {
    /// Those of a plan.
    pub fn new(alloc: Global, plan: &Plan) -> Result<Alternatives, NoMemory>
        ensures { IfOk result (HasAlternatives plan.now) }
    {
        alternatives_of::<Brand>(alloc, plan, Blank::new(1))
    }

    /// The number of node `i`; 0 where it is no alternative.
    pub fn number(&self, i: u16) -> u16
        ensures { result ≡ number_at (slice_get self.now.numbers i) }
    {
        if usize::from(i) >= self.numbers.len() {
            return 0;
        }
        match self.numbers[usize::from(i)] {
            Some(number) => number,
            None => 0,
        }
    }

    /// The outline of node `i`, where it has one.
    #[inline(always)]
    pub(crate) fn outline(&self, i: u16) -> Option<&Outline>
        ensures { option_copied result ≡ outline_at self.now.outlines i }
    {
        if usize::from(i) < self.outlines.len() {
            self.outlines[usize::from(i)].as_ref()
        } else {
            None
        }
    }
}

/// Those of a plan, with a counter of steps.
fn alternatives_of<L: Ledger>(
    alloc: Global,
    plan: &Plan,
    blank: Blank,
) -> Result<Alternatives, NoMemory>
    requires name { blank.name ≡ L.name }
    requires parts { blank.parts ≡ L.parts }
    requires some { 0 < blank.parts }
    ensures { IfOk result (HasAlternatives plan.now) }
{
    let mut steps = Steps::<L>::new(blank);
    let numbers = numbers_of(alloc, plan, &mut steps)?;
    let outlines = outlines(alloc, plan, &mut steps)?;
    Ok(Alternatives { numbers, outlines })
}

/// The numbers of the alternatives of a plan.
fn numbers_of<L: Ledger>(
    alloc: Global,
    plan: &Plan,
    steps: &mut Steps<L>,
) -> Result<Vec<Option<u16>>, NoMemory>
    ensures { IfOk result (λ numbers. HasNumbers plan.now numbers.items) }
{
    let count = plan.len();
    let mut numbers = vec![in alloc; None; usize::from(count)]?;
    for i in 0..count {
        match plan.node(i, steps) {
            Node::Choice(parts) => number_parts(parts, &mut numbers),
            _ => {}
        }
    }
    Ok(numbers)
}

/// Gives each part of a choice its number.
fn number_parts(parts: &Parts, numbers: &mut Vec<Option<u16>>)
    requires { (k part : ℕ) → slice_get parts.now k ≡ Some part → part < length numbers.old.items }
    ensures len { length numbers.new.items ≡ length numbers.old.items }
    ensures numbered { (i : ℕ) → Numbered parts.now (length parts.now) numbers.old.items numbers.new.items i }
{
    for k in 0..parts.len() {
        numbers[usize::from(parts.get(k))] = Some(k);
    }
}
