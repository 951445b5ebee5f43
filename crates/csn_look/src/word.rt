ghost use Rattle.std.specs.Prelude.{◌≡◌, ◌<◌, ◌≤◌, ◌^◌, ℕ, List, [], ◌∷◌, ◌++◌, length, slice_index};
ghost use Rattle.csn_bits.specs.Numbers.{low_bits};
ghost use Rattle.csn_bits.specs.Octets.{IsBits};
ghost use Rattle.csn_look.specs.KeyMarks.{IsWord, place_of};

use std::marker::Model;

/// The most bits that are looked at ahead.
pub const MOST_WORD: usize = 12;

/// How many places of words there are: the words of at most 12 bits have those from 1 on.
pub const PLACES: usize = 8192;

/// A word of at most 12 bits: the number that a 1 and then its bits write. A contract sees the list of its bits.
#[derive(Clone, Copy, Debug, PartialEq, Eq)]
pub struct Word {
    place: u16,
}

impl Model for Word {
    ghost use Rattle.std.specs.Prelude.{List, ℕ, ◌<◌};
    ghost use Rattle.std.proofs.Common.{ap};
    ghost use Rattle.csn_look.specs.declared.word.TheConstants.{PLACES};
    ghost use Rattle.csn_look.specs.WordV.{word_of, write_on, word_of-written};

    ghost Value = { List ℕ };

    ghost view = { λ w. word_of w.place };

    ghost invariant = { λ w. (0 < w.place) × (w.place < PLACES) };

    ghost inverse = { λ bits. record { place = write_on 1 bits } };

    ghost inverse_ok = { λ w h. ap (λ p. record { place = p }) (word_of-written w.place h.0 h.1) };
}

impl Word {
    /// No bits.
    pub fn new() -> Word
        ensures { result ≡ [] }
    {
        Word { place: 1 }
    }

    /// The last so many bits of a number that has no more.
    pub fn of_bits(number: u64, count: u32) -> Word
        requires few { count ≤ MOST_WORD }
        requires small { number < 2 ^ count }
        ensures { result ≡ low_bits count number }
    {
        Word {
            place: (1 << count | number) as u16,
        }
    }

    /// The word with this place.
    pub(crate) fn with_place(place: usize) -> Word
        requires some { 0 < place }
        requires small { place < PLACES }
        ensures { (word : List ℕ) → IsWord word → place_of word ≡ place → result ≡ word }
    {
        Word {
            place: place as u16,
        }
    }

    /// Adds a bit at the end.
    pub fn push(&mut self, bit: u8)
        requires bit { bit ≤ 1 }
        requires room { length self.old < MOST_WORD }
        ensures { self.new ≡ self.old ++ bit ∷ [] }
    {
        self.place = 2 * self.place + bit as u16;
    }

    /// The word and a bit behind it.
    pub fn with(&self, bit: u8) -> Word
        requires bit { bit ≤ 1 }
        requires room { length self.now < MOST_WORD }
        ensures value { result ≡ self.now ++ bit ∷ [] }
        ensures word { IsWord result }
    {
        Word {
            place: 2 * self.place + bit as u16,
        }
    }

    /// How many bits there are.
    pub fn len(&self) -> u8
        ensures count { result ≡ length self.now }
        ensures within { result ≤ MOST_WORD }
        ensures bits { IsBits self.now }
    {
        (15 - self.place.leading_zeros()) as u8
    }

    /// The bit at a place, counted from 0.
    pub fn get(&self, at: u8) -> u8
        requires { at < length self.now }
        ensures value { result ≡ slice_index self.now at }
        ensures bit { result ≤ 1 }
    {
        let behind = self.len() - 1 - at;
        ((self.place >> behind) % 2) as u8
    }

    /// The same word once more.
    pub fn copy(&self) -> Word
        ensures { result ≡ self.now }
    {
        *self
    }

    /// The place of the word among all words: the number that a 1 and then its bits write.
    pub fn place(&self) -> usize
        ensures value { result ≡ place_of self.now }
        ensures some { 0 < result }
        ensures small { result < PLACES }
        ensures word { IsWord self.now }
    {
        self.place as usize
    }
}

/// What a part begins with: all of a string of it, or the first bits of some, which are cut.
#[derive(Clone, Copy, Debug, PartialEq, Eq)]
pub struct Key {
    pub word: Word,
    pub whole: bool,
}
