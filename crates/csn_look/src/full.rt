//! Whether all words of one size that go on from a word are keys.

ghost use Rattle.std.specs.Prelude.{◌≡◌, ℕ, ◌+◌, ◌-◌, ◌*◌, ◌^◌, ◌<◌, ◌≤◌, true, false, List, length, IfSome, IfNone, IsTrue};
ghost use Rattle.csn_look.specs.Full.{is_key_at, AreAll, IsOther, AreNoKeys, IsFullAt, sought_against};
ghost use Rattle.csn_look.specs.KeyMarks.{IsWord, place_of};
ghost use Rattle.csn_look.specs.KeyTables.{IsKeyTable};

use crate::key_marks::{MARK_WORDS, STARTS, is_key};
use crate::key_table::KeyTable;
use crate::marks::{Sought, next_sought};
use crate::word::{MOST_WORD, PLACES};

/// How many bits more the keys have that go on from the word with this place, which has so many bits: where all words
/// of one size that go on from it are keys, and no shorter one is.
pub(crate) fn full_size(table: &KeyTable, place: usize, len: u8) -> Option<u8>
    requires table { IsKeyTable table.now }
    requires some { 0 < place }
    requires few { len ≤ MOST_WORD }
    requires within { place < 2 ^ (len + 1) }
    ensures room { IfSome result (λ more. len + more ≤ MOST_WORD) }
    ensures full { IfSome result (IsFullAt table.now place) }
    ensures none { IfNone result ((word : List ℕ) → IsWord word → place_of word ≡ place → length word ≡ len
        → (more : ℕ) → len + more ≤ MOST_WORD → ¬ IsFullAt table.now place more) }
{
    let Some(more) = first_key(table, place, len) else {
        return None;
    };
    let first = place << more;
    if are_all(table, true, first, first + (1 << more)) && has_no_shorter(table, place, more) {
        Some(more)
    } else {
        None
    }
}

/// How many zeros stand behind the word with this place, which has so many bits, in the first key that is it and zeros.
fn first_key(table: &KeyTable, place: usize, len: u8) -> Option<u8>
    requires table { IsKeyTable table.now }
    requires some { 0 < place }
    requires few { len ≤ MOST_WORD }
    requires within { place < 2 ^ (len + 1) }
    ensures room { IfSome result (λ more. len + more ≤ MOST_WORD) }
    ensures key { IfSome result (λ more. is_key_at table.now (place * 2 ^ more) ≡ true) }
    ensures before { IfSome result (AreNoKeys table.now place) }
    ensures none { IfNone result ((word : List ℕ) → IsWord word → place_of word ≡ place → length word ≡ len → AreNoKeys table.now place (13 - len)) }
{
    for more in 0..MOST_WORD as u8 - len + 1 {
        let at = place << more;
        if is_key(table, at) {
            return Some(more);
        }
        if !table.is_marked(STARTS + at) {
            return None;
        }
    }
    None
}

/// Whether no word is a key that goes on from the one with this place by fewer bits.
fn has_no_shorter(table: &KeyTable, place: usize, more: u8) -> bool
    requires size { length table.now ≡ MARK_WORDS }
    requires some { 0 < place }
    requires few { more ≤ MOST_WORD }
    requires within { (place + 1) * 2 ^ more ≤ PLACES }
    ensures none { IsTrue result → (less : ℕ) → less < more → AreAll table.now false (place * 2 ^ less) (place * 2 ^ less + 2 ^ less) }
    ensures some { result ≡ false → (less : ℕ) × (less < more) × IsOther table.now false (place * 2 ^ less) (place * 2 ^ less + 2 ^ less) }
{
    for less in 0..more {
        let first = place << less;
        if !are_all(table, false, first, first + (1 << less)) {
            return false;
        }
    }
    true
}

/// Whether all words with places from this one on, and before an end, are keys; or none is.
fn are_all(table: &KeyTable, keys: bool, from: usize, end: usize) -> bool
    requires size { length table.now ≡ MARK_WORDS }
    requires order { from ≤ end }
    requires within { end ≤ PLACES }
    ensures all { IsTrue result → AreAll table.now keys from end }
    ensures other { result ≡ false → IsOther table.now keys from end }
{
    next_sought(table, sought_against(keys), from, end) == end
}

/// What is sought where words are to be keys, or are to be none.
fn sought_against(keys: bool) -> Sought
    ensures { result ≡ sought_against keys }
{
    if keys { Sought::NoKey } else { Sought::Key }
}
