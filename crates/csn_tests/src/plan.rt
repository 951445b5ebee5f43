ghost use Rattle.std.specs.Prelude.{◌≡◌, ◌<◌, ◌≤◌, length, IfOk, IsTrue};
ghost use Rattle.csn_look.specs.ReachV.{IsReachOf};
ghost use Rattle.csn_certify.specs.Picks.{IsAsked};

use crate::building::word_of;
use crate::texts::{desc_of, plan_of};
use csn_certify::{Layout, Pick, Plan, Steps, certify};
use csn_desc::{Desc, Node, Reading};
use csn_look::{Look, Reach};
use std::alloc::Global;
use std::marker::Brand;
use std::process::Abort;
use std::sync::ledger::{Blank, Ledger};
use std::test::Fail;

const CHOICE: &str = "<M> ::= { 0 <A : bit (2)> | 10 <A : bit> | 11 } ;";

const OPTION: &str = "<M> ::= { 0 <A : bit> | null } 1 ;";

const REPETITION: &str = "<M> ::= { 1 <A : bit> } ** ;";

const LOW: &str = "<M> ::= L <A : bit (2)> ;";

// Whether look-ahead may be asked at a node at an octet position.
fn is_asked(desc: &Desc, reach: &Reach, i: u16, octet: u8) -> bool
    requires octet { octet ≤ 7 }
    requires reached { IsReachOf desc.now reach.now.reached }
    ensures node { IsTrue result → i < length desc.now.nodes }
    ensures asked { IsTrue result → IsAsked desc.now i octet }
{
    if i >= desc.len() {
        return false;
    }
    match desc.node(i) {
        Node::Choice(_) => reach.reached(i).has(octet),
        Node::Many(part) if *part < desc.len() => reach.reached(*part).has(octet),
        _ => false,
    }
}

// The bits that are held, whether the block has ended, and what is answered.
type PickCase = (&'static [u8], bool, Pick);

const OF_CHOICE: &[PickCase] = &[
    (&[], false, Pick::Wait),
    (&[], true, Pick::Refuse),
    (&[0, 0], false, Pick::Wait),
    (&[0, 0], true, Pick::Refuse),
    (&[0, 0, 1], true, Pick::Take(0)),
    (&[0, 1, 1, 0], false, Pick::Take(0)),
    (&[1], false, Pick::Wait),
    (&[1, 0], false, Pick::Wait),
    (&[1, 0, 1], false, Pick::Take(1)),
    (&[1, 1], true, Pick::Take(2)),
    (&[1, 1, 0], false, Pick::Take(2)),
];

const OF_OPTION: &[PickCase] = &[
    (&[], false, Pick::Wait),
    (&[], true, Pick::Take(1)),
    (&[0], false, Pick::Wait),
    (&[0, 1], false, Pick::Take(0)),
    (&[1], false, Pick::Take(1)),
];

const OF_REPETITION: &[PickCase] = &[
    (&[], false, Pick::Wait),
    (&[], true, Pick::Leave),
    (&[1], false, Pick::Take(0)),
    (&[0], true, Pick::Leave),
];

// Whether look-ahead may be asked at a node of a description at octet position 0.
fn is_asked_first(alloc: Global, desc: &Desc, i: u16) -> Result<bool, Fail>
    ensures node { IfOk result (λ yes. IsTrue yes → i < length desc.now.nodes) }
    ensures asked { IfOk result (λ yes. IsTrue yes → IsAsked desc.now i 0) }
{
    let look = Look::new(alloc, desc)?;
    let reach = Reach::new(alloc, desc, &look)?;
    Ok(is_asked(desc, &reach, i, 0))
}

// What look-ahead answers at a node at octet position 0 where these bits are held.
fn answered<L: Ledger>(
    plan: &Plan,
    i: u16,
    bits: &[u8],
    ended: bool,
    steps: &mut Steps<L>,
) -> Result<Pick, Fail>
    requires node { i < length plan.now.nodes }
    requires asked { IsAsked plan.now i 0 }
{
    Ok(plan.pick(i, 0, &word_of(bits)?, ended, steps))
}

// It answers as these rows say.
fn are_answered<L: Ledger, R: Abort>(
    rt: &R,
    plan: &Plan,
    i: u16,
    cases: &[PickCase],
    steps: &mut Steps<L>,
) -> Result<(), Fail>
    requires node { i < length plan.now.nodes }
    requires asked { IsAsked plan.now i 0 }
{
    for (bits, ended, pick) in cases {
        let given = answered(plan, i, bits, *ended, steps)?;
        assert_eq!(rt; given, *pick, "{bits:?} {ended}");
    }
    Ok(())
}

// A description is certified, and its plan answers at a node as these rows say.
fn answers<L: Ledger, R: Abort>(
    rt: &R,
    alloc: Global,
    text: &str,
    i: u16,
    cases: &[PickCase],
    steps: &mut Steps<L>,
) -> Result<(), Fail> {
    let desc = desc_of(alloc, text, Reading::Received)?;
    if !is_asked_first(alloc, &desc, i)? {
        return Err("it is not asked there".into());
    }
    let Ok(plan) = certify(alloc, desc) else {
        return Err("not certified".into());
    };
    are_answered(rt, &plan, i, cases, steps)
}

fn picks<L: Ledger, R: Abort>(rt: &R, alloc: Global, blank: Blank) -> Result<(), Fail>
    requires name { blank.name ≡ L.name }
    requires parts { blank.parts ≡ L.parts }
    requires some { 0 < blank.parts }
{
    let mut steps = Steps::<L>::new(blank);
    answers(rt, alloc, CHOICE, 0, OF_CHOICE, &mut steps)?;
    answers(rt, alloc, OPTION, 1, OF_OPTION, &mut steps)?;
    answers(rt, alloc, REPETITION, 0, OF_REPETITION, &mut steps)
}

#[test]
fn look_ahead_answers_by_held_bits(rt: HostRuntime) -> Result<(), Fail> {
    picks::<Brand, HostRuntime>(&rt, rt.alloc(), Blank::new(1))
}

// The nodes of the plan of the choice.
fn gives_nodes<L: Ledger, R: Abort>(rt: &R, plan: &Plan, steps: &mut Steps<L>) {
    assert_eq!(rt; plan.len(), 10);
    let is_literal = matches!(plan.node(9, steps), Node::Lits(_));
    assert_eq!(rt;
        (plan.reading(), plan.counts(3), is_literal),
        (Reading::Received, false, true)
    );
}

fn nodes<L: Ledger, R: Abort>(rt: &R, alloc: Global, blank: Blank) -> Result<(), Fail>
    requires name { blank.name ≡ L.name }
    requires parts { blank.parts ≡ L.parts }
    requires some { 0 < blank.parts }
{
    let mut steps = Steps::<L>::new(blank);
    let plan = plan_of(alloc, CHOICE)?;
    gives_nodes(rt, &plan, &mut steps);
    assert_eq!(rt; Box::into_inner(plan).into_desc().len(), 10);
    Ok(())
}

#[test]
fn a_plan_gives_its_nodes(rt: HostRuntime) -> Result<(), Fail> {
    nodes::<Brand, HostRuntime>(&rt, rt.alloc(), Blank::new(1))
}

// The layout of a node.
fn layout_of(plan: &Plan, i: u16) -> Result<Option<Layout>, Fail> {
    if i >= plan.len() {
        return Err("there is no such node".into());
    }
    Ok(plan.layout(i))
}

// Whether all bits of a node, as a number, are a string of it.
fn admits(plan: &Plan, i: u16, number: u64) -> Result<bool, Fail> {
    if i >= plan.len() {
        return Err("there is no such node".into());
    }
    let Some(layout) = plan.layout(i) else {
        return Err("no layout".into());
    };
    Ok(layout.admits(number))
}

// A plan admits these numbers as all bits of a node, or does not.
fn are_admitted<R: Abort>(rt: &R, plan: &Plan, cases: &[(u16, u64, bool)]) -> Result<(), Fail> {
    for &(i, number, is_string) in cases {
        assert_eq!(rt; admits(plan, i, number)?, is_string, "{i} {number}");
    }
    Ok(())
}

// A node, and the layout that it has.
type LayoutCase = (u16, Option<Layout>);

// The nodes of a plan have the layouts of these rows.
fn are_laid_out<R: Abort>(rt: &R, plan: &Plan, cases: &[LayoutCase]) -> Result<(), Fail> {
    for &(i, layout) in cases {
        assert_eq!(rt; layout_of(plan, i)?, layout, "{i}");
    }
    Ok(())
}

const LAYOUTS_OF_CHOICE: &[LayoutCase] = &[
    (0, None),
    (
        1,
        Some(Layout {
            width: 3,
            fixed: 1,
            number: 0,
        }),
    ),
    (
        4,
        Some(Layout {
            width: 2,
            fixed: 0,
            number: 0,
        }),
    ),
    (
        5,
        Some(Layout {
            width: 3,
            fixed: 2,
            number: 0b10,
        }),
    ),
    (
        9,
        Some(Layout {
            width: 2,
            fixed: 2,
            number: 0b11,
        }),
    ),
];

const LAYOUTS_OF_LOW: &[LayoutCase] = &[
    (0, None),
    (1, None),
    (
        3,
        Some(Layout {
            width: 2,
            fixed: 0,
            number: 0,
        }),
    ),
];

#[test]
fn a_plan_gives_the_layouts_of_its_nodes(rt: HostRuntime) -> Result<(), Fail> {
    let plan = plan_of(rt.alloc(), CHOICE)?;
    are_laid_out(&rt, &plan, LAYOUTS_OF_CHOICE)?;
    are_admitted(&rt, &plan, &[(5, 0b101, true), (5, 0b001, false)])
}

#[test]
fn bits_that_go_by_their_place_have_no_layout(rt: HostRuntime) -> Result<(), Fail> {
    let plan = plan_of(rt.alloc(), LOW)?;
    are_laid_out(&rt, &plan, LAYOUTS_OF_LOW)
}
