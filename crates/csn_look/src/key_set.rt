ghost use Rattle.std.specs.Prelude.{◌≡◌, ℕ, [], ◌∷◌, ◌+◌, ◌-◌, ◌^◌, ◌<◌, ◌≤◌, ◌++◌, List, length, slice_get, Some, IfOk};
ghost use Rattle.csn_look.specs.KeyMarks.{IsWord, place_of, has_key};
ghost use Rattle.csn_look.specs.KeyLists.{keys_if, own_keys, keys_from};

use crate::key_marks::{MARK_WORDS, STARTS};
use crate::key_table::KeyTable;
use crate::word::{Key, MOST_WORD, PLACES, Word};
use csn_bits::NoMemory;
use std::alloc::Global;
use std::marker::Model;

/// The keys of a set, each once, by rising word, and at one word cut before whole. A contract sees the
/// list of them.
#[derive(Debug, Drop)]
pub struct KeySet {
    pub(crate) keys: Vec<Key>,
}

impl Model for KeySet {
    ghost use Rattle.std.specs.Prelude.{List, ◌<◌, ◌^◌, length};
    ghost use Rattle.csn_look.specs.declared.word.Key.{Key};

    ghost Value = { List Key };

    ghost view = { λ s. s.keys.items };

    ghost invariant = { λ s. length s.keys.items < 2 ^ 32 };
}

impl KeySet {
    /// How many keys there are.
    pub fn len(&self) -> u32
        ensures { result ≡ length self.now }
    {
        self.keys.len() as u32
    }

    /// The key at a place of the list, counted from 0.
    pub fn get(&self, at: u32) -> &Key
        requires { at < length self.now }
        ensures { slice_get self.now at ≡ Some result.now }
    {
        &self.keys[at as usize]
    }
}

/// Lists a key, where the set has it.
fn list_key(marks: &KeyTable, key: Key, keys: &mut Vec<Key>) -> Result<(), NoMemory>
    ensures { IfOk result (λ done. keys.new.items ≡ keys.old.items ++ keys_if (has_key marks.now key.word key.whole) (key ∷ [])) }
{
    if marks.holds(&key.word, key.whole) {
        return Ok(keys.push(key)?);
    }
    Ok(())
}

/// Lists the word with this place, cut and whole, where it is a key so.
fn list_word(marks: &KeyTable, place: usize, keys: &mut Vec<Key>) -> Result<(), NoMemory>
    requires some { 0 < place }
    requires small { place < PLACES }
    ensures { (word : List ℕ) → IsWord word → place_of word ≡ place → IfOk result (λ done. keys.new.items ≡ keys.old.items ++ own_keys marks.now word) }
{
    let word = Word::with_place(place);
    list_key(marks, Key { word, whole: false }, keys)?;
    list_key(marks, Key { word, whole: true }, keys)?;
    Ok(())
}

/// Lists the keys that begin with the word with this place, which has so many bits.
pub(crate) fn list_keys(
    marks: &KeyTable,
    place: usize,
    size: usize,
    keys: &mut Vec<Key>,
) -> Result<(), NoMemory>
    requires marks { length marks.now ≡ MARK_WORDS }
    requires few { size ≤ MOST_WORD }
    requires some { 0 < place }
    requires small { place < 2 ^ (size + 1) }
    ensures { (word : List ℕ) → IsWord word → place_of word ≡ place → length word ≡ size → IfOk result
        (λ done. keys.new.items ≡ keys.old.items ++ keys_from marks.now (MOST_WORD - size) word) }
{
    list_word(marks, place, keys)?;
    if size == MOST_WORD {
        return Ok(());
    }
    if marks.is_marked(STARTS + place) {
        list_keys(marks, 2 * place, size + 1, keys)?;
        return list_keys(marks, 2 * place + 1, size + 1, keys);
    }
    Ok(())
}
