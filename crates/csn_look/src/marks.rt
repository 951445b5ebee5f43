//! Marks, each a bit of a list of numbers of 64 bits, the least significant one first.

ghost use Rattle.std.specs.Prelude.{◌≡◌, ℕ, ◌+◌, ◌*◌, ◌^◌, ◌<◌, ◌≤◌, true, false, ◌||◌, ◌==◌, nat_eq, length};
ghost use Rattle.std.specs.Int.{bit_at};
ghost use Rattle.csn_look.specs.KeyMarks.{is_marked};
ghost use Rattle.csn_look.specs.KeySteps.{Copies};
ghost use Rattle.csn_look.specs.Full.{is_sought, sought_end};

use crate::key_marks::{CUT, MARK_WORDS, MARKS};
use crate::key_table::KeyTable;

/// Whether the mark is set.
pub(crate) fn is_marked(marks: &[u64], at: usize) -> bool
    requires { at < 64 * length marks.now }
    ensures { result ≡ is_marked marks.now at }
{
    (marks[at / 64] >> (at % 64)) % 2 == 1
}

/// What is sought among places: marks, words that are keys, whole or cut, or words that are none.
#[derive(Clone, Copy)]
pub(crate) enum Sought {
    Marked,
    Key,
    NoKey,
}

/// The first place from this one on, and before an end, whose mark is set; and the end where there is none.
pub(crate) fn next_marked(marks: &KeyTable, from: usize, end: usize) -> usize
    requires size { length marks.now ≡ MARK_WORDS }
    requires order { from ≤ end }
    requires within { end ≤ MARKS }
    ensures low { from ≤ result }
    ensures high { result ≤ end }
    ensures none { (at : ℕ) → from ≤ at → at < result → is_marked marks.now at ≡ false }
    ensures here { result < end → is_marked marks.now result ≡ true }
{
    next_sought(marks, Sought::Marked, from, end)
}

/// The first place from this one on, and before an end, that is sought; and the end where there is none.
pub(crate) fn next_sought(table: &KeyTable, sought: Sought, from: usize, end: usize) -> usize
    requires size { length table.now ≡ MARK_WORDS }
    requires order { from ≤ end }
    requires within { end ≤ sought_end sought }
    ensures low { from ≤ result }
    ensures high { result ≤ end }
    ensures none { (at : ℕ) → from ≤ at → at < result → is_sought sought table.now at ≡ false }
    ensures here { result < end → is_sought sought table.now result ≡ true }
{
    let mut at = from;
    while at < end {
        let left = sought_in(table, sought, at / 64) >> (at % 64);
        if left == 0 {
            at = 64 * (at / 64 + 1);
        } else if left % 2 == 1 {
            return at;
        } else {
            at += 1;
        }
    }
    end
}

/// Which of 64 places are sought.
fn sought_in(table: &KeyTable, sought: Sought, at: usize) -> u64
    requires size { length table.now ≡ MARK_WORDS }
    requires few { 64 * at < sought_end sought }
    ensures { (k : ℕ) → k < 64 → (bit_at result k == 1) ≡ is_sought sought table.now (64 * at + k) }
{
    match sought {
        Sought::Marked => table.word(at),
        Sought::Key => table.word(at) | table.word(CUT / 64 + at),
        Sought::NoKey => !(table.word(at) | table.word(CUT / 64 + at)),
    }
}

/// Sets a mark.
pub(crate) fn set_mark(marks: &mut [u64], at: usize)
    requires { at < 64 * length marks.old }
    ensures { (other : ℕ) → is_marked marks.new other ≡ (nat_eq other at || is_marked marks.old other) }
{
    marks[at / 64] |= 1 << (at % 64);
}

/// Sets so many marks from a place on where others are set, which begin at a place of their own.
pub(crate) fn copy_marks(marks: &mut [u64], to: usize, others: &KeyTable, from: usize, count: usize)
    requires mine { length marks.old ≡ MARK_WORDS }
    requires other { length others.now ≡ MARK_WORDS }
    requires to { to + count ≤ MARKS }
    requires from { from + count ≤ MARKS }
    ensures { Copies marks.old marks.new others.now to from count }
{
    let mut done = 0;
    while done < count {
        done += copy_run(marks, to + done, others, from + done, count - done);
    }
}

/// Copies as many of some marks as stand in one number of 64 marks on both sides, and answers how many.
fn copy_run(marks: &mut [u64], to: usize, others: &KeyTable, from: usize, count: usize) -> usize
    requires mine { length marks.old ≡ MARK_WORDS }
    requires other { length others.now ≡ MARK_WORDS }
    requires some { 0 < count }
    requires to { to + count ≤ MARKS }
    requires from { from + count ≤ MARKS }
    ensures some { 0 < result }
    ensures few { result ≤ count }
    ensures copied { Copies marks.old marks.new others.now to from result }
{
    let run = run_of(to % 64, from % 64, count);
    let bits = (others.word(from / 64) >> (from % 64)) & (u64::MAX >> (64 - run));
    marks[to / 64] |= bits << (to % 64);
    run
}

/// How many of some marks stand in one number, from both of two places in it on.
fn run_of(to: usize, from: usize, count: usize) -> usize
    requires to { to < 64 }
    requires from { from < 64 }
    requires some { 0 < count }
    ensures some { 0 < result }
    ensures few { result ≤ count }
    ensures to { to + result ≤ 64 }
    ensures from { from + result ≤ 64 }
{
    let most = 64 - if to < from { from } else { to };
    if count < most { count } else { most }
}

/// Of each two marks side by side whether one is set, in half the marks.
pub(crate) fn halved(marks: u64) -> u64
    ensures bits { (k : ℕ) → k < 32 → (bit_at result k == 1) ≡ ((bit_at marks (2 * k) == 1) || (bit_at marks (2 * k + 1) == 1)) }
    ensures small { result < 2 ^ 32 }
{
    let mut half: u64 = 0;
    if marks == 0 {
        return half;
    }
    for at in 0..32u32 {
        if (marks >> (2 * at)) % 4 != 0 {
            half |= 1 << at;
        }
    }
    half
}
