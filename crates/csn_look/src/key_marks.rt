//! The marks of a set of keys, and those of the prefixes of its keys: one of each kind for each place of a word.

ghost use Rattle.std.specs.Prelude.{◌≡◌, ℕ, ◌+◌, ◌<◌, ◌↔◌, ◌||◌, List, length, IsTrue};
ghost use Rattle.csn_look.specs.KeyMarks.{IsWord, is_marked, place_of, key_mark, BeginsWithKey};
ghost use Rattle.csn_look.specs.KeyTables.{AddsKey};

use crate::key_table::KeyTable;
use crate::marks::{is_marked, set_mark};
use crate::word::PLACES;

/// Where the marks of cut keys begin; those of whole keys begin at 0.
pub(crate) const CUT: usize = PLACES;

/// Where the marks of words begin that are prefixes of keys and not all of them.
pub(crate) const STARTS: usize = 2 * PLACES;

/// How many marks there are.
pub(crate) const MARKS: usize = 3 * PLACES;

/// How many numbers of 64 bits they take.
pub(crate) const MARK_WORDS: usize = MARKS / 64;

/// Which mark says that the word with this place is a key.
pub(crate) fn key_mark(place: usize, whole: bool) -> usize
    requires { place < PLACES }
    ensures { result ≡ key_mark place whole }
{
    if whole { place } else { CUT + place }
}

/// Whether the word with this place is a key, whole or cut.
pub(crate) fn is_key(marks: &KeyTable, place: usize) -> bool
    requires size { length marks.now ≡ MARK_WORDS }
    requires small { place < PLACES }
    ensures { result ≡ (is_marked marks.now place || is_marked marks.now (CUT + place)) }
{
    marks.is_marked(place) || marks.is_marked(CUT + place)
}

/// Whether a key is a prefix of the word with this place.
pub(crate) fn begins_with_key(marks: &KeyTable, place: usize) -> bool
    requires size { length marks.now ≡ MARK_WORDS }
    requires some { 0 < place }
    requires small { place < PLACES }
    ensures { (word : List ℕ) → IsWord word → place_of word ≡ place → IsTrue result ↔ BeginsWithKey marks.now word }
{
    let mut at = place;
    while at > 1 {
        if is_key(marks, at) {
            return true;
        }
        at /= 2;
    }
    is_key(marks, 1)
}

/// Makes the word with this place a key, and its prefixes the beginnings of one. Where one of them begins a key
/// already, so do all before it.
pub(crate) fn add_key(marks: &mut [u64], place: usize, whole: bool)
    requires size { length marks.old ≡ MARK_WORDS }
    requires some { 0 < place }
    requires small { place < PLACES }
    ensures { (word : List ℕ) → IsWord word → place_of word ≡ place → AddsKey marks.old marks.new word whole }
{
    set_mark(marks, key_mark(place, whole));
    let mut at = place;
    while at > 1 {
        at /= 2;
        if is_marked(marks, STARTS + at) {
            return;
        }
        set_mark(marks, STARTS + at);
    }
}
