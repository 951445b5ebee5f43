ghost use Rattle.std.specs.Prelude.{◌≡◌, ℕ, ◌<◌, length, slice_get, Some, IfOk};
ghost use Rattle.csn_movetext.specs.Numbers.{AreNumbers, Numbered};

use csn_bits::NoMemory;
use csn_certify::{Plan, Steps};
use csn_desc::{Node, Parts};
use std::alloc::Global;
use std::sync::ledger::Ledger;

/// For each node of a plan its number, where it is an alternative of a choice.
pub(crate) fn alternatives<L: Ledger>(
    alloc: Global,
    plan: &Plan,
    steps: &mut Steps<L>,
) -> Result<Vec<Option<u16>>, NoMemory>
    ensures { IfOk result (λ numbers. AreNumbers plan.now (length plan.now.nodes) numbers.items) }
{
    let count = plan.len();
    let mut numbers = vec![in alloc; None; usize::from(count)]?;
    for i in 0..count {
        match plan.node(i, steps) {
            Node::Choice(parts) => number_parts(parts, &mut numbers),
            _ => {}
        }
    }
    Ok(numbers)
}

/// Gives each part of a choice its number.
fn number_parts(parts: &Parts, numbers: &mut Vec<Option<u16>>)
    requires { (k part : ℕ) → slice_get parts.now k ≡ Some part → part < length numbers.old.items }
    ensures len { length numbers.new.items ≡ length numbers.old.items }
    ensures numbered { (i : ℕ) → Numbered parts.now (length parts.now) numbers.old.items numbers.new.items i }
{
    for k in 0..parts.len() {
        numbers[usize::from(parts.get(k))] = Some(k);
    }
}
