//! What single words say.

ghost use Rattle.std.specs.Prelude.{◌≡◌, ◌≤◌, length, codes, IsTrue};
ghost use Rattle.std.specs.List.{list_all};
ghost use Rattle.std.specs.Char.{is_ascii_digit};
ghost use Rattle.csn_grammar.specs.declared.exponent.TheConstants.{MOST_DIGITS};
ghost use Rattle.csn_grammar.specs.Writing.{decimal_after};
ghost use Rattle.csn_grammar.specs.reader.GivesForm.{GivesForm};
ghost use Rattle.csn_grammar.specs.reader.Gives.{Gives};
ghost use Rattle.csn_grammar.specs.reader.Spellings.{is_text, number_of, symbol_of, run_of, word_form};

use crate::exponent::MOST_DIGITS;
use crate::expr::Form;
use crate::reader::stop::Stop;
use csn_desc::{Run, Symbol};
use std::alloc::Global;

// The number that these digits write.
fn decimal(digits: &[u8]) -> u32
    requires few { length digits.now ≤ MOST_DIGITS }
    requires digits { IsTrue (list_all is_ascii_digit digits.now) }
    ensures { result ≡ decimal_after 0 digits.now }
{
    let mut number = 0u32;
    for digit in digits {
        number = number * 10 + u32::from(*digit - b'0');
    }
    number
}

fn are_digits(word: &[u8]) -> bool
    ensures { result ≡ list_all is_ascii_digit word.now }
{
    word.iter().all(|byte| byte.is_ascii_digit())
}

/// The number that the digits write, where they are one at least and few enough.
pub fn number_of(word: &[u8]) -> Option<u32>
    ensures { result ≡ number_of word.now }
{
    if word.len() >= 1 && word.len() <= MOST_DIGITS && are_digits(word) {
        Some(decimal(word))
    } else {
        None
    }
}

/// Whether the word is `val`.
pub fn is_val(word: &[u8]) -> bool
    ensures { result ≡ is_text word.now (codes "val") }
{
    word == b"val".as_slice()
}

fn symbol_of(byte: u8) -> Option<Symbol>
    ensures { result ≡ symbol_of byte }
{
    match byte {
        b'0' => Some(Symbol::Zero),
        b'1' => Some(Symbol::One),
        b'L' => Some(Symbol::Low),
        b'H' => Some(Symbol::High),
        _ => None,
    }
}

// The symbols of a word that is a literal.
fn run_of(alloc: Global, word: &[u8]) -> Result<Run, Stop>
    ensures { Gives result (run_of word.now) }
{
    let mut run = Run::new(alloc);
    for byte in word {
        match symbol_of(*byte) {
            Some(symbol) => run.add(symbol)?,
            None => return Err(Stop::Refused),
        }
    }
    Ok(run.share()?)
}

/// The side that a word is alone.
pub fn word_form(alloc: Global, word: &[u8]) -> Result<Form, Stop>
    ensures { GivesForm result (word_form word.now) }
{
    if word == b"null".as_slice() {
        Ok(Form::Null)
    } else if word == b"bit".as_slice() {
        Ok(Form::Bit)
    } else if word == b"octet".as_slice() {
        Ok(Form::Octet)
    } else {
        Ok(Form::Lits(run_of(alloc, word)?))
    }
}
