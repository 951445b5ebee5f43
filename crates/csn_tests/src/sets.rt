use crate::building::word_of;
use csn_look::{Begins, Follow, Key, KeySet, KeyTable, KeyTables, OctetSet, Sign, SymbolSet, Word};
use std::alloc::Global;
use std::process::Abort;
use std::test::Fail;

#[test]
fn sets_have_what_was_added(rt: HostRuntime) {
    let octets = OctetSet::empty().with(0).with(5);
    let signs = SymbolSet::empty().with(Sign::One).with(Sign::End);
    let has = [
        signs.has(Sign::Zero),
        signs.has(Sign::One),
        signs.has(Sign::End),
    ];
    let mut at = [SymbolSet::empty(); 8];
    at[3] = signs;
    let follow = Follow::new(at);
    let follows = [follow.at(3).has(Sign::One), follow.at(4).has(Sign::One)];
    assert_eq!(rt;
        (marks_of(octets), has, follows),
        (0b0010_0001, [false, true, true], [true, false])
    );
}

#[test]
fn a_word_holds_its_bits(rt: HostRuntime) {
    let mut word = Word::new();
    word.push(1);
    word.push(0);
    word.push(1);
    let key = Key { word, whole: true };
    let bits = [key.word.get(0), key.word.get(1), key.word.get(2)];
    assert_eq!(rt;
        (key.word.len(), bits, key.word == Word::of_bits(5, 3)),
        (3, [1, 0, 1], true)
    );
}

fn set_of(marks: u8) -> OctetSet {
    let mut set = OctetSet::empty();
    for octet in 0..8 {
        if (marks >> octet) % 2 == 1 {
            set = set.with(octet);
        }
    }
    set
}

pub(crate) fn marks_of(set: OctetSet) -> u8 {
    let mut marks = 0;
    for octet in 0..8 {
        if set.has(octet) {
            marks |= 1 << octet;
        }
    }
    marks
}

/// A set, by how much it is turned, and what comes of it.
const TURNS: &[(u8, u8, u8)] = &[
    (0b0000_0001, 3, 0b0000_1000),
    (0b1000_0001, 1, 0b0000_0011),
    (0b0010_0000, 0, 0b0010_0000),
];

/// Two sets, their sums and their union.
const SUMS: &[(u8, u8, u8, u8)] = &[
    (0b0000_0110, 0b1000_0001, 0b0000_0111, 0b1000_0111),
    (0b0000_0000, 0b0000_0001, 0b0000_0000, 0b0000_0001),
    (0b1000_0000, 0b1000_0000, 0b0100_0000, 0b1000_0000),
];

/// A set, how often it is added, and the sums.
const TIMES: &[(u8, u32, u8)] = &[
    (0b0000_1000, 5, 0b1000_0000),
    (0b0000_0011, 3, 0b0000_1111),
    (0b0000_1010, 2, 0b0101_0100),
    (0b0000_0100, 65536, 0b0000_0001),
    (0b0000_0010, 65535, 0b1000_0000),
    (0b0010_0000, 0, 0b0000_0001),
    (0b0000_0000, 1, 0b0000_0000),
];

/// A set, and its sums where it is added any number of times.
const REPEATED: &[(u8, u8)] = &[
    (0b0000_0000, 0b0000_0001),
    (0b0000_0100, 0b0101_0101),
    (0b0100_0000, 0b0101_0101),
    (0b0001_0000, 0b0001_0001),
    (0b0000_1000, 0b1111_1111),
    (0b0010_0100, 0b1111_1111),
];

#[test]
fn lengths_turn(rt: HostRuntime) -> Result<(), Fail> {
    assert_eq!(rt; marks_of(OctetSet::all()), 0b1111_1111);
    for &(set, by, turned) in TURNS {
        assert!(rt; by <= 7);
        let marks = marks_of(set_of(set).turned(by));
        assert_eq!(rt; (set, by, marks), (set, by, turned));
    }
    Ok(())
}

#[test]
fn lengths_add(rt: HostRuntime) -> Result<(), Fail> {
    for &(left, right, plus, union) in SUMS {
        let sums = marks_of(set_of(left).plus(set_of(right)));
        let both = marks_of(set_of(left).union(set_of(right)));
        assert_eq!(rt; (left, right, sums, both), (left, right, plus, union));
    }
    // from 1 one bit and from 6 four bits lead to 2
    assert_eq!(rt;
        marks_of(set_of(0b0000_0100).before(set_of(0b0001_0010))),
        0b0100_0010
    );
    Ok(())
}

#[test]
fn lengths_are_repeated(rt: HostRuntime) -> Result<(), Fail> {
    for &(set, n, sums) in TIMES {
        let marks = marks_of(set_of(set).times(n));
        assert_eq!(rt; (set, n, marks), (set, n, sums));
    }
    for &(set, sums) in REPEATED {
        let marks = marks_of(set_of(set).repeated());
        assert_eq!(rt; (set, marks), (set, sums));
    }
    Ok(())
}

/// The set of these keys, each a whole word.
fn table_of(alloc: Global, keys: &[&[u8]]) -> Result<KeyTable, Fail> {
    let mut table = KeyTable::new(alloc)?;
    for key in keys {
        table.add(alloc, &word_of(key)?, true)?;
    }
    Ok(table)
}

/// Bits, and how they stand to the keys of a set.
pub(crate) type BeginsCase = (&'static [u8], Begins);

/// Bits stand to the keys of a set as these rows say.
pub(crate) fn begin_as<R: Abort>(
    rt: &R,
    table: &KeyTable,
    cases: &[BeginsCase],
) -> Result<(), Fail> {
    for &(bits, begins) in cases {
        assert_eq!(rt; table.begins(&word_of(bits)?), begins, "{bits:?}");
    }
    Ok(())
}

/// Bits, and whether they are a key of a set as a whole word, and as a cut one.
pub(crate) type HoldsCase = (&'static [u8], bool, bool);

/// A set holds the keys of these rows.
pub(crate) fn holds_as<R: Abort>(
    rt: &R,
    table: &KeyTable,
    cases: &[HoldsCase],
) -> Result<(), Fail> {
    for &(bits, whole, cut) in cases {
        let word = word_of(bits)?;
        let held = (table.holds(&word, true), table.holds(&word, false));
        assert_eq!(rt; held, (whole, cut), "{bits:?}");
    }
    Ok(())
}

const BEFORE_THE_FIRST: &[BeginsCase] = &[(&[0], Begins::Neither)];

const WITH_ALL_KEYS: &[BeginsCase] = &[
    (&[], Begins::Proper),
    (&[1, 0], Begins::Proper),
    (&[1, 0, 1, 1], Begins::Key),
    (&[0, 1], Begins::Key),
    (&[1, 1], Begins::Neither),
];

const HELD: &[HoldsCase] = &[(&[1, 0, 1], true, false), (&[1, 0], false, false)];

#[test]
fn a_table_tells_how_bits_begin(rt: HostRuntime) -> Result<(), Fail> {
    // the keys 01, 100 and 101 of { 01 | 10 <A : bit> }
    let first = table_of(rt.alloc(), &[&[0, 1]])?;
    let mut table = table_of(rt.alloc(), &[&[1, 0, 0], &[1, 0, 1]])?;
    begin_as(&rt, &table, BEFORE_THE_FIRST)?;
    table.add_all(rt.alloc(), &first)?;
    holds_as(&rt, &table, HELD)?;
    begin_as(&rt, &table, WITH_ALL_KEYS)
}

/// The keys 0, whole, and 1, cut.
fn zero_or_more(alloc: Global) -> Result<KeyTable, Fail> {
    let mut table = table_of(alloc, &[&[0]])?;
    table.add(alloc, &word_of(&[1])?, false)?;
    Ok(table)
}

/// The keys of a first part, and of two bits behind it.
fn with_two_bits(alloc: Global, first: &KeyTable) -> Result<KeyTable, Fail> {
    let mut rest = KeyTable::new(alloc)?;
    rest.add_words(alloc, 2, true)?;
    let tables = [rest];
    let mut both = KeyTable::new(alloc)?;
    both.add_after(alloc, first, &tables, &[0; 8])?;
    Ok(both)
}

/// The keys of these rows, in their order: the bits, and whether they are a whole word.
fn lists<R: Abort>(rt: &R, keys: &KeySet, cases: &[(&[u8], bool)]) -> Result<(), Fail> {
    assert_eq!(rt; keys.len() as usize, cases.len());
    for at in 0..keys.len() {
        let Some((bits, whole)) = cases.get(at as usize) else {
            return Err("no row".into());
        };
        let key = keys.get(at);
        let is_same = key.word == word_of(bits)?;
        assert_eq!(rt; (at, is_same, key.whole), (at, true, *whole));
    }
    Ok(())
}

const WITH_TWO_BITS: &[(&[u8], bool)] = &[
    (&[0, 0, 0], true),
    (&[0, 0, 1], true),
    (&[0, 1, 0], true),
    (&[0, 1, 1], true),
    (&[1], false),
];

#[test]
fn one_part_after_another(rt: HostRuntime) -> Result<(), Fail> {
    // 0, or 1 and more, and then two bits: 000, 001, 010 and 011, whole, and 1, cut
    let first = zero_or_more(rt.alloc())?;
    let both = with_two_bits(rt.alloc(), &first)?;
    let keys = both.keys(rt.alloc())?;
    lists(&rt, &keys, WITH_TWO_BITS)
}

/// The numbers of sets of one key each, in the order in which they are kept.
fn numbers_of(alloc: Global, tables: &mut KeyTables, keys: &[&[u8]]) -> Result<Vec<usize>, Fail> {
    let mut numbers = Vec::new(alloc);
    for key in keys {
        let table = table_of(alloc, &[key])?;
        numbers.push(tables.keep(table)?)?;
    }
    Ok(numbers)
}

#[test]
fn equal_tables_are_kept_once(rt: HostRuntime) -> Result<(), Fail> {
    let mut tables = KeyTables::new(rt.alloc());
    let numbers = numbers_of(rt.alloc(), &mut tables, &[&[0, 1], &[1, 1], &[0, 1]])?;
    assert_eq!(rt; numbers.as_slice(), [0, 1, 0].as_slice());
    assert_eq!(rt; tables.len(), 2);
    holds_as(&rt, tables.get(1), &[(&[1, 1], true, false)])
}
