//! The marks of the words that begin keys, made from those of all keys at once.

ghost use Rattle.std.specs.Prelude.{◌≡◌, ℕ, ◌+◌, ◌*◌, ◌<◌, ◌≤◌, ◌==◌, ◌||◌, length};
ghost use Rattle.std.specs.Int.{bit_at};
ghost use Rattle.csn_look.specs.KeySteps.{is_begun, MarksBetween, MarksStarts};

use crate::key_marks::{CUT, MARK_WORDS, STARTS};
use crate::marks::{halved, is_marked, set_mark};

/// Marks the words that begin keys, the longest ones first: 64 of them at once, and the shortest ones each.
pub(crate) fn mark_starts(marks: &mut [u64])
    requires { length marks.old ≡ MARK_WORDS }
    ensures { MarksStarts 1 marks.old marks.new }
{
    for at in (1..64).rev() {
        mark_start_words(marks, at);
    }
    for place in (1..64).rev() {
        mark_start(marks, place);
    }
}

/// Marks the words that begin keys among those with 64 places.
fn mark_start_words(marks: &mut [u64], at: usize)
    requires size { length marks.old ≡ MARK_WORDS }
    requires some { 0 < at }
    requires few { at < 64 }
    ensures { MarksBetween (64 * at) (64 * at + 64) marks.old marks.new }
{
    let low = halved(begun_words(marks, 2 * at));
    let high = halved(begun_words(marks, 2 * at + 1));
    marks[STARTS / 64 + at] |= low | high << 32;
}

/// Which of the words with 64 places are keys, whole or cut, or are marked as those that begin keys.
fn begun_words(marks: &[u64], at: usize) -> u64
    requires size { length marks.now ≡ MARK_WORDS }
    requires few { at < 128 }
    ensures { (k : ℕ) → k < 64 → (bit_at result k == 1) ≡ is_begun marks.now (64 * at + k) }
{
    marks[at] | (marks[CUT / 64 + at] | marks[STARTS / 64 + at])
}

/// Marks the word with this place where it begins a key.
fn mark_start(marks: &mut [u64], place: usize)
    requires size { length marks.old ≡ MARK_WORDS }
    requires some { 0 < place }
    requires few { place < 64 }
    ensures { MarksBetween place (place + 1) marks.old marks.new }
{
    if goes_on(marks, place) {
        set_mark(marks, STARTS + place);
    }
}

/// Whether the word with this place is, with one bit more, a key or marked as one that begins a key.
fn goes_on(marks: &[u64], place: usize) -> bool
    requires size { length marks.now ≡ MARK_WORDS }
    requires few { place < 64 }
    ensures { result ≡ (is_begun marks.now (2 * place) || is_begun marks.now (2 * place + 1)) }
{
    is_begun(marks, 2 * place) || is_begun(marks, 2 * place + 1)
}

/// Whether the word with this place is a key, whole or cut, or is marked as one that begins a key.
fn is_begun(marks: &[u64], place: usize) -> bool
    requires size { length marks.now ≡ MARK_WORDS }
    requires few { place < 128 }
    ensures { result ≡ is_begun marks.now place }
{
    is_marked(marks, place) || is_marked(marks, CUT + place) || is_marked(marks, STARTS + place)
}
