ghost use Rattle.std.specs.Prelude.{◌≡◌, ◌<◌, ◌≤◌, length};
ghost use Rattle.csn_look.specs.LookKeys.{IsKeysOf};

use crate::building::{bits, enter, finished, labelled, leaf, leave, literal, word_of};
use crate::sets::{BeginsCase, begin_as, holds_as, marks_of};
use csn_desc::{Count, Desc, DescBuilder, Head, Reading, Symbol};
use csn_look::{Begins, Key, Look, Reach, Sign, SymbolSet};
use std::alloc::Global;
use std::process::Abort;
use std::test::Fail;

/// `{ 01 | 10 <A : bit> }`: node 0 is the choice, 1 the first literal word, 2 the sequence.
fn one_of_two(alloc: Global, builder: &mut DescBuilder) -> Result<(), Fail> {
    enter(builder, Head::Choice)?;
    leaf(builder, literal(alloc, &[Symbol::Zero, Symbol::One])?)?;
    enter(builder, Head::Seq)?;
    leaf(builder, literal(alloc, &[Symbol::One, Symbol::Zero])?)?;
    labelled(alloc, builder, b"A", bits(1))?;
    leave(builder)?;
    leave(builder)
}

/// A sequence with a node of every kind: nodes 1 to 6 are a choice, 7 and 8 a repetition of a bit, 9 and 10 a
/// field of three bits, 11 and 12 as many octets, 13 and 14 any number of ones, 15 to 17 a truncation of a
/// spare bit and a 0, 18 nothing and 19 padding.
fn every_kind(alloc: Global) -> Result<Desc, Fail> {
    let mut builder = DescBuilder::new(alloc, Reading::Sent);
    enter(&mut builder, Head::Seq)?;
    one_of_two(alloc, &mut builder)?;
    enter(&mut builder, Head::Times(Count::Fixed(2)))?;
    leaf(&mut builder, bits(1))?;
    leave(&mut builder)?;
    labelled(alloc, &mut builder, b"N", bits(3))?;
    let octets = Count::Counted {
        m: 1,
        field: 9,
        c: 0,
    };
    enter(
        &mut builder,
        Head::Window {
            unit: 8,
            count: octets,
        },
    )?;
    leaf(&mut builder, Head::Rest)?;
    leave(&mut builder)?;
    last_kinds(alloc, &mut builder)?;
    leave(&mut builder)?;
    finished(builder)
}

fn last_kinds(alloc: Global, builder: &mut DescBuilder) -> Result<(), Fail> {
    enter(builder, Head::Many)?;
    leaf(builder, literal(alloc, &[Symbol::One])?)?;
    leave(builder)?;
    enter(builder, Head::Trunc)?;
    leaf(builder, Head::Spare(Symbol::Low))?;
    leaf(builder, literal(alloc, &[Symbol::Zero])?)?;
    leave(builder)?;
    leaf(builder, Head::Null)?;
    leaf(builder, Head::Pad)
}

/// A node, an octet position, how many keys there are, the first one, and whether it is a whole word.
type KeysCase = (u16, u8, u32, &'static [u8], bool);

/// A node, whether it may have no bits, whether it is firm, where it ends from 0 on and where it is reached.
type SetsCase = (u16, bool, bool, u8, u8);

const FIRM: &[SetsCase] = &[
    (0, false, true, 0b1111_1111, 0b0000_0001),
    (1, false, true, 0b0000_1100, 0b0000_0001),
    (5, false, true, 0b0000_0010, 0b0000_0100),
    (7, false, true, 0b0000_0100, 0b0000_1100),
    (8, false, true, 0b0000_0010, 0b0001_1100),
    (9, false, true, 0b0000_1000, 0b0011_0000),
    (14, false, true, 0b0000_0010, 0b1111_1111),
    (19, false, true, 0b1111_1111, 0b1111_1111),
];

const NOT_FIRM: [SetsCase; 5] = [
    (11, true, false, 0b0000_0001, 0b1000_0001),
    (12, true, false, 0b1111_1111, 0b1000_0001),
    (13, true, false, 0b1111_1111, 0b1000_0001),
    (15, true, false, 0b0000_0111, 0b1111_1111),
    (18, true, false, 0b0000_0001, 0b1111_1111),
];

/// At the octet positions from 0 on the padding pattern has 0, 0, 1, 0, 1, 0, 1, 1.
const KEYS: &[KeysCase] = &[
    (0, 0, 96, &[0, 1, 0, 0, 0, 0, 0], false),
    (1, 0, 3, &[0, 1], true),
    (2, 0, 1, &[0, 1], true),
    (3, 0, 2, &[1, 0, 0], true),
    (4, 3, 1, &[1, 0], true),
    (5, 0, 2, &[0], true),
    (6, 2, 2, &[0], true),
    (7, 0, 4, &[0, 0], true),
    (9, 1, 8, &[0, 0, 0], true),
    (11, 5, 1, &[], false),
    (12, 0, 1, &[], false),
    (13, 0, 1, &[], false),
    (14, 0, 1, &[1], true),
    (15, 4, 1, &[], false),
    (16, 2, 1, &[1], true),
    (16, 3, 1, &[0], true),
    (17, 0, 1, &[0], true),
    (18, 0, 1, &[], true),
    (19, 6, 1, &[1], false),
    (19, 0, 1, &[0], false),
];

/// How many keys a node has at an octet position, and the first one.
fn first_key(alloc: Global, look: &Look, node: u16, octet: u8) -> Result<(u32, Key), Fail>
    requires node { node < length look.now.rows }
    requires octet { octet ≤ 7 }
{
    let keys = look.keys(alloc, node, octet)?;
    if keys.len() == 0 {
        return Err("no keys".into());
    }
    Ok((keys.len(), *keys.get(0)))
}

/// The nodes of a description have the keys of these rows.
fn have_keys<R: Abort>(
    rt: &R,
    alloc: Global,
    desc: &Desc,
    look: &Look,
    cases: &[KeysCase],
) -> Result<(), Fail>
    requires { IsKeysOf desc.now look.now }
{
    for &(node, octet, count, first, whole) in cases {
        assert!(rt; node < desc.len() && octet <= 7);
        let (len, key) = first_key(alloc, look, node, octet)?;
        let is_same = key.word == word_of(first)?;
        assert_eq!(rt;
            (node, octet, len, is_same, key.whole),
            (node, octet, count, true, whole)
        );
    }
    Ok(())
}

#[test]
fn nodes_have_their_keys(rt: HostRuntime) -> Result<(), Fail> {
    let desc = every_kind(rt.alloc())?;
    let look = Look::new(rt.alloc(), &desc)?;
    have_keys(&rt, rt.alloc(), &desc, &look, KEYS)
}

/// Whether a node may have no bits, whether it is firm, where it ends from 0 on and where it is reached.
fn sets_of(look: &Look, reach: &Reach, node: u16) -> (bool, bool, u8, u8)
    requires sets { node < length look.now.sets }
    requires reached { node < length reach.now.reached }
{
    let ends = marks_of(look.ends(node, 0));
    let reached = marks_of(reach.reached(node));
    (look.nullable(node), look.firm(node), ends, reached)
}

/// The nodes of a description have the sets of these rows.
fn have_sets<R: Abort>(rt: &R, desc: &Desc, look: &Look, reach: &Reach, cases: &[SetsCase])
    requires sets { length look.now.sets ≡ length desc.now.nodes }
    requires reached { length reach.now.reached ≡ length desc.now.nodes }
{
    for &(node, nullable, firm, ends, reached) in cases {
        assert!(rt; node < desc.len());
        let sets = sets_of(look, reach, node);
        assert_eq!(rt; sets, (nullable, firm, ends, reached), "{node}");
    }
}

/// Whether a set has 0, 1 and the end.
fn signs_of(set: SymbolSet) -> (bool, bool, bool) {
    (set.has(Sign::Zero), set.has(Sign::One), set.has(Sign::End))
}

/// A node, and whether 0, 1 and the end may come first at octet position 3, and may follow there.
type SignsCase = (u16, (bool, bool, bool), (bool, bool, bool));

const SIGNS: &[SignsCase] = &[
    (1, (true, true, false), (true, true, false)),
    (12, (true, true, true), (false, false, true)),
    (13, (true, true, false), (true, true, false)),
    (14, (false, true, false), (true, true, false)),
    (19, (true, false, false), (false, false, true)),
];

/// Whether 0, 1 and the end may come first at a node at octet position 3, and may follow there.
fn signs_at(look: &Look, reach: &Reach, node: u16) -> ((bool, bool, bool), (bool, bool, bool))
    requires sets { node < length look.now.sets }
    requires follow { node < length reach.now.follow }
{
    let follow = reach.follow(node);
    let first = look.first(node, 3, &follow);
    (signs_of(first), signs_of(follow.at(3)))
}

/// The nodes of a description have the signs of these rows.
fn have_signs<R: Abort>(rt: &R, desc: &Desc, look: &Look, reach: &Reach, cases: &[SignsCase])
    requires sets { length look.now.sets ≡ length desc.now.nodes }
    requires follow { length reach.now.follow ≡ length desc.now.nodes }
{
    for &(node, first, follow) in cases {
        assert!(rt; node < desc.len());
        assert_eq!(rt; signs_at(look, reach, node), (first, follow), "{node}");
    }
}

#[test]
fn nodes_have_their_sets_and_signs(rt: HostRuntime) -> Result<(), Fail> {
    let desc = every_kind(rt.alloc())?;
    let look = Look::new(rt.alloc(), &desc)?;
    let reach = Reach::new(rt.alloc(), &desc, &look)?;
    have_sets(&rt, &desc, &look, &reach, FIRM);
    have_sets(&rt, &desc, &look, &reach, NOT_FIRM.as_slice());
    have_signs(&rt, &desc, &look, &reach, SIGNS);
    Ok(())
}

const OF_THE_SEQUENCE: &[BeginsCase] = &[
    (&[1, 0], Begins::Proper),
    (&[1, 0, 1, 1], Begins::Key),
    (&[0], Begins::Neither),
];

/// The description of `{ 01 | 10 <A : bit> }`.
fn two_alternatives(alloc: Global) -> Result<Desc, Fail> {
    let mut builder = DescBuilder::new(alloc, Reading::Received);
    one_of_two(alloc, &mut builder)?;
    finished(builder)
}

#[test]
fn a_table_is_asked_for_some_bits(rt: HostRuntime) -> Result<(), Fail> {
    let desc = two_alternatives(rt.alloc())?;
    let look = Look::new(rt.alloc(), &desc)?;
    assert!(rt; desc.len() > 2);
    let table = look.key_table(2, 0);
    begin_as(&rt, table, OF_THE_SEQUENCE)?;
    holds_as(&rt, table, &[(&[1, 0, 1], true, false)])
}

fn doubled(alloc: Global, builder: &mut DescBuilder, levels: u8) -> Result<(), Fail> {
    if levels == 0 {
        return leaf(builder, literal(alloc, &[Symbol::Zero])?);
    }
    enter(builder, Head::Seq)?;
    doubled(alloc, builder, levels - 1)?;
    doubled(alloc, builder, levels - 1)?;
    leave(builder)
}

/// Each node has one key: twice a 0, four times, eight times and more often.
const DOUBLED: &[KeysCase] = &[
    (12, 5, 1, &[0, 0], true),
    (11, 5, 1, &[0, 0, 0, 0], true),
    (10, 5, 1, &[0; 8], true),
    (0, 5, 1, &[0; 12], false),
];

#[test]
fn equal_parts_share_their_tables(rt: HostRuntime) -> Result<(), Fail> {
    let mut builder = DescBuilder::new(rt.alloc(), Reading::Received);
    doubled(rt.alloc(), &mut builder, 13)?;
    let desc = finished(builder)?;
    assert_eq!(rt; desc.len(), 16_383);
    let look = Look::new(rt.alloc(), &desc)?;
    have_keys(&rt, rt.alloc(), &desc, &look, DOUBLED)
}
