//! The keys of one part after another. What begins them is marked when all of them are there.

ghost use Rattle.std.specs.Prelude.{◌≡◌, ℕ, ◌+◌, ◌-◌, ◌*◌, ◌^◌, ◌<◌, ◌≤◌, ◌⊎◌, Bool, false, List, [], length, if◌then◌else◌};
ghost use Rattle.csn_look.specs.KeyMarks.{IsWord, place_of, has_key};
ghost use Rattle.csn_look.specs.KeyTables.{IsKeyTable};
ghost use Rattle.csn_look.specs.KeySteps.{Extends, Gains, HasSizes, IsBehind, IsKeyBehind, IsAfter};

use crate::key_marks::{CUT, MARK_WORDS, STARTS, key_mark};
use crate::key_table::KeyTable;
use crate::marks::{copy_marks, next_marked, set_mark};
use crate::sizes::Sizes;
use crate::starts::mark_starts;
use crate::word::{MOST_WORD, PLACES};

/// How many words of the most bits there are.
const MOST_WORDS: usize = PLACES / 2;

/// A bit for each size.
const ALL_SIZES: usize = PLACES - 1;

/// How many words of so many bits there are, which is also the place of the first of them.
pub(crate) fn words_of(size: usize) -> usize
    requires { size ≤ MOST_WORD }
    ensures value { result ≡ 2 ^ size }
    ensures some { 0 < result }
    ensures small { result ≤ MOST_WORDS }
{
    1 << size
}

/// All words of one size.
pub(crate) fn add_words(marks: &mut [u64], words: usize, whole: bool)
    requires size { length marks.old ≡ MARK_WORDS }
    requires some { 0 < words }
    requires few { words ≤ MOST_WORDS }
    ensures { (size : ℕ) → words ≡ 2 ^ size → size ≤ MOST_WORD → Extends marks.old marks.new (λ word mark. (length word ≡ size) × (mark ≡ whole)) }
{
    for number in 0..words {
        set_mark(marks, key_mark(words + number, whole));
    }
    mark_starts(marks);
}

/// The word with the place `front`, and behind it each of the `words` of one size that has its mark set, the
/// marks beginning at `plane`. There are none where these words are none of the sizes.
fn add_marked(
    marks: &mut [u64],
    front: usize,
    rest: &KeyTable,
    plane: usize,
    sizes: usize,
    words: usize,
    whole: bool,
)
    requires size { length marks.old ≡ MARK_WORDS }
    requires rest_size { length rest.now ≡ MARK_WORDS }
    requires plane { plane ≤ STARTS }
    requires sizes { HasSizes rest.now plane sizes }
    requires some { 0 < front }
    requires few { words ≤ MOST_WORDS }
    requires room { (front + 1) * words ≤ PLACES }
    ensures { (first : List ℕ) (size : ℕ) → IsWord first → place_of first ≡ front → words ≡ 2 ^ size
        → length first + size ≤ MOST_WORD
        → Gains marks.old marks.new (λ word mark. IsBehind rest.now plane first size words word × (mark ≡ whole)) }
{
    if sizes & words == 0 {
        return;
    }
    let to = key_mark(0, whole) + front * words;
    copy_marks(marks, to, rest, plane + words, words);
}

/// The word with the place `front`, and behind it each key of one size.
fn add_keys_of(marks: &mut [u64], front: usize, rest: &KeyTable, sizes: Sizes, words: usize)
    requires size { length marks.old ≡ MARK_WORDS }
    requires rest_size { length rest.now ≡ MARK_WORDS }
    requires whole { HasSizes rest.now 0 sizes.whole }
    requires cut { HasSizes rest.now CUT sizes.cut }
    requires some { 0 < front }
    requires few { words ≤ MOST_WORDS }
    requires room { (front + 1) * words ≤ PLACES }
    ensures { (first : List ℕ) (size : ℕ) → IsWord first → place_of first ≡ front → words ≡ 2 ^ size
        → length first + size ≤ MOST_WORD
        → Gains marks.old marks.new (λ word mark. IsBehind rest.now (if mark then 0 else CUT) first size words word) }
{
    add_marked(marks, front, rest, 0, sizes.whole, words, true);
    add_marked(marks, front, rest, CUT, sizes.cut, words, false);
}

/// The word with the place `front`, which leaves room for so many bits, and behind it each key, cut at 12 bits.
fn add_behind(marks: &mut [u64], front: usize, rest: &KeyTable, sizes: Sizes, room: usize)
    requires size { length marks.old ≡ MARK_WORDS }
    requires rest_size { length rest.now ≡ MARK_WORDS }
    requires whole { HasSizes rest.now 0 sizes.whole }
    requires cut { HasSizes rest.now CUT sizes.cut }
    requires starts { HasSizes rest.now STARTS sizes.starts }
    requires some { 0 < front }
    requires few { room ≤ MOST_WORD }
    requires within { (front + 1) * 2 ^ room ≤ PLACES }
    ensures { (first : List ℕ) → IsWord first → place_of first ≡ front → length first + room ≡ MOST_WORD
        → IsKeyTable rest.now → Gains marks.old marks.new (IsKeyBehind rest.now first) }
{
    for size in 0..room + 1 {
        add_keys_of(marks, front, rest, sizes, words_of(size));
    }
    add_marked(
        marks,
        front,
        rest,
        STARTS,
        sizes.starts,
        words_of(room),
        false,
    );
}

/// Each whole key of the first part that has so many bits, and behind it each key of the rest.
fn add_after_wholes(marks: &mut [u64], first: &KeyTable, rest: &KeyTable, size: usize)
    requires size { length marks.old ≡ MARK_WORDS }
    requires first_size { length first.now ≡ MARK_WORDS }
    requires rest_size { length rest.now ≡ MARK_WORDS }
    requires few { size ≤ MOST_WORD }
    ensures { IsKeyTable rest.now → Gains marks.old marks.new (IsAfter first.now rest.now size (2 ^ size)) }
{
    let words = words_of(size);
    let mut at = next_marked(first, words, 2 * words);
    if at == 2 * words {
        return;
    }
    let sizes = Sizes::of(rest);
    while at < 2 * words {
        add_behind(marks, at, rest, sizes, MOST_WORD - size);
        at = next_marked(first, at + 1, 2 * words);
    }
}

/// Each cut key of the first part that has so many bits, and each whole one with each key of the rest behind it.
pub(crate) fn add_after_size(marks: &mut [u64], first: &KeyTable, rest: &KeyTable, size: usize)
    requires size { length marks.old ≡ MARK_WORDS }
    requires first_size { length first.now ≡ MARK_WORDS }
    requires rest_size { length rest.now ≡ MARK_WORDS }
    requires few { size ≤ MOST_WORD }
    ensures { IsKeyTable rest.now → Gains marks.old marks.new
        (λ word mark. (IsBehind first.now CUT [] size (2 ^ size) word × (mark ≡ false))
        ⊎ IsAfter first.now rest.now size (2 ^ size) word mark) }
{
    add_marked(marks, 1, first, CUT, ALL_SIZES, words_of(size), false);
    add_after_wholes(marks, first, rest, size);
}
