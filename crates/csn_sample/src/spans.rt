//! How many bits the strings of the nodes have.

ghost use Rattle.std.specs.Prelude.{◌+◌, ◌≤◌, length};

use crate::span::{Span, span_at};
use csn_bits::{MOST_BITS, NoMemory};
use csn_certify::{Plan, Steps};
use csn_desc::{Count, Node, Parts};
use std::alloc::Global;
use std::sync::ledger::Ledger;

/// The spans of all nodes, and for each the least and the greatest number that it may write where windows are counted on
/// it.
#[derive(Drop)]
pub(crate) struct Spans {
    pub bits: Vec<Span>,
    pub numbers: Vec<Span>,
}

/// The spans of a plan. Its nodes are gone through once, the last one first.
pub(crate) fn plan_spans<L: Ledger>(
    alloc: Global,
    plan: &Plan,
    steps: &mut Steps<L>,
) -> Result<Spans, NoMemory>
    ensures { steps.new ≤ steps.old + length plan.now.nodes }
{
    let count = plan.len();
    let mut bits = vec![in alloc; Span::NONE; usize::from(count)]?;
    let mut numbers = vec![in alloc; Span::NUMBER; usize::from(count)]?;
    for i in (0..count).rev() {
        let node = plan.node(i, steps);
        narrow(node, bits.as_slice(), numbers.as_mut_slice());
        bits[usize::from(i)] = span_of(node, bits.as_slice()).in_block();
    }
    Ok(Spans { bits, numbers })
}

/// As many bits as leave room for most strings of a plan: 184, as a block of 23 octets has, or twice the least that they
/// have. It takes a step for each node.
pub fn ample<L: Ledger>(alloc: Global, plan: &Plan, steps: &mut Steps<L>) -> Result<u32, NoMemory>
    ensures { steps.new ≤ steps.old + length plan.now.nodes }
{
    let spans = plan_spans(alloc, plan, steps)?;
    let least = span_at(spans.bits.as_slice(), 0)
        .least
        .min(u64::from(MOST_BITS));
    Ok((2 * least as u32).clamp(184, MOST_BITS))
}

/// Where a node is a window of so many units as a number says, the number is one that what is inside has room for.
fn narrow(node: &Node, bits: &[Span], numbers: &mut [Span]) {
    let Node::Window { unit, count, part } = node else {
        return;
    };
    let Count::Counted { m, field, c } = count else {
        return;
    };
    if let Some(number) = numbers.get_mut(usize::from(*field)) {
        *number = number.counting(
            span_at(bits, *part),
            u64::from(*unit),
            u64::from(*m),
            u64::from(*c),
        );
    }
}

/// The span of a node, by those of its parts.
fn span_of(node: &Node, spans: &[Span]) -> Span {
    match node {
        Node::Lits(run) => Span::exactly(u64::from(run.len())),
        Node::Spare(_) => Span::exactly(1),
        Node::Pad => Span {
            least: 1,
            most: Span::ANY.most,
        },
        Node::Null => Span::NONE,
        Node::Field { unit, count } => times(*count, Span::exactly(u64::from(*unit))),
        Node::Rest | Node::Many(_) => Span::ANY,
        Node::Seq(parts) => all_of(parts, spans),
        Node::Choice(parts) => one_of(parts, spans),
        Node::Times { count, part } => times(*count, span_at(spans, *part)),
        Node::Trunc(parts) => Span {
            least: 0,
            most: all_of(parts, spans).most,
        },
        Node::Window { unit, count, .. } => times(*count, Span::exactly(u64::from(*unit))),
        Node::Named { part, .. } => span_at(spans, *part),
    }
}

/// A part as many times as counted.
fn times(count: Count, part: Span) -> Span {
    match count {
        Count::Fixed(n) => part.times(Span::exactly(u64::from(n))),
        Count::Counted { m, c, .. } => {
            let least = u64::from(c);
            let most = u64::from(m).saturating_mul(65535).saturating_add(least);
            part.times(Span { least, most })
        }
    }
}

/// Some parts one after another.
fn all_of(parts: &Parts, spans: &[Span]) -> Span {
    let mut all = Span::NONE;
    for k in 0..parts.len() {
        all = all.and(span_at(spans, parts.get(k)));
    }
    all
}

/// One of some parts.
fn one_of(parts: &Parts, spans: &[Span]) -> Span {
    let mut one = Span {
        least: Span::ANY.most,
        most: 0,
    };
    for k in 0..parts.len() {
        one = one.or(span_at(spans, parts.get(k)));
    }
    one
}
