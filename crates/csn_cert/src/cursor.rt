ghost use Rattle.std.specs.Prelude.{◌≡◌, ◌+◌, ◌≤◌, ◌++◌, ◌∷◌, [], ℕ, List, OnOk, IfOk, IfErr, IfSome, IfNone};
ghost use Rattle.std.specs.Bool.{OnTrue, OnFalse};
ghost use Rattle.csn_cert.specs.PatternText.{mark_character};
ghost use Rattle.csn_cert.specs.Reading.{Refuses, BeginsNoMark, BeginsNoPosition, HasNoFeed};

use crate::fault::CertFault;
use crate::pattern::Mark;
use memchr::memchr;
use std::marker::Model;

/// What is left of a text that is read from its front. A contract sees the bytes that are left.
#[derive(Drop)]
pub(crate) struct Cursor<'a> {
    rest: &'a [u8],
}

impl<'a> Model for Cursor<'a> {
    ghost use Rattle.std.specs.Prelude.{List, ℕ};

    ghost Value = { List ℕ };

    ghost view = { λ c. c.rest.now };
}

impl<'a> Cursor<'a> {
    /// Nothing was read yet.
    pub fn new(text: &'a [u8]) -> Cursor<'a>
        ensures { result ≡ text.now }
    {
        Cursor { rest: text }
    }

    /// Whether all of the text was read.
    pub fn is_empty(&self) -> bool
        ensures yes { OnTrue result (self.now ≡ []) }
        ensures no { OnFalse result (self.now ≡ [] → ⊥) }
    {
        self.rest.len() == 0
    }

    /// Whether the line of a position begins here.
    pub fn begins_position(&self) -> bool
        ensures yes { OnTrue result ((begun : List ℕ) × (self.now ≡ 97 ∷ begun)) }
        ensures no { OnFalse result (BeginsNoPosition self.now) }
    {
        match self.rest {
            [b'a', ..] => true,
            _ => false,
        }
    }

    /// Takes a byte.
    pub fn byte(&mut self) -> Option<u8>
        ensures some { IfSome result (λ byte. self.old ≡ byte ∷ self.new) }
        ensures none { IfNone result (self.old ≡ []) }
    {
        let (first, rest) = self.rest.split_first()?;
        self.rest = rest;
        Some(*first)
    }

    /// Takes a binary digit that has to stand here.
    pub fn digit(&mut self) -> Result<u8, CertFault>
        ensures ok { IfOk result (λ digit. self.old ≡ (48 + digit) ∷ self.new) }
        ensures bit { IfOk result (λ digit. digit ≤ 1) }
        ensures refused { IfErr result (λ fault. Refuses fault ((digit : ℕ) (after : List ℕ) → digit ≤ 1 → self.old ≡ (48 + digit) ∷ after → ⊥)) }
    {
        if self.take(b"0") {
            return Ok(0);
        }
        if self.take(b"1") {
            return Ok(1);
        }
        Err(CertFault::Text)
    }

    /// Takes a word, if it stands here.
    pub fn take(&mut self, word: &[u8]) -> bool
        ensures yes { OnTrue result (self.old ≡ word.now ++ self.new) }
        ensures no { OnFalse result ((after : List ℕ) → self.old ≡ word.now ++ after → ⊥) }
        ensures stays { OnFalse result (self.new ≡ self.old) }
    {
        match self.rest.strip_prefix(word) {
            Some(rest) => {
                self.rest = rest;
                true
            }
            None => false,
        }
    }

    /// Takes a word that has to stand here.
    pub fn expect(&mut self, word: &[u8]) -> Result<(), CertFault>
        ensures ok { OnOk result (self.old ≡ word.now ++ self.new) }
        ensures refused { IfErr result (λ fault. Refuses fault ((after : List ℕ) → self.old ≡ word.now ++ after → ⊥)) }
    {
        if self.take(word) {
            Ok(())
        } else {
            Err(CertFault::Text)
        }
    }

    /// Takes a mark, if one stands here.
    pub fn mark(&mut self) -> Option<Mark>
        ensures some { IfSome result (λ mark. self.old ≡ mark_character mark ∷ self.new) }
        ensures none { IfNone result (BeginsNoMark self.old) }
        ensures stays { IfNone result (self.new ≡ self.old) }
    {
        let (first, rest) = self.rest.split_first()?;
        let mark = mark_of(*first)?;
        self.rest = rest;
        Some(mark)
    }

    /// Takes what stands before the next line feed, and this.
    pub fn line(&mut self) -> Result<&'a [u8], CertFault>
        ensures ok { IfOk result (λ line. self.old ≡ line.now ++ 10 ∷ self.new) }
        ensures first { IfOk result (λ line. HasNoFeed line.now) }
        ensures refused { IfErr result (λ fault. Refuses fault (HasNoFeed self.old)) }
    {
        let Some(end) = memchr(b'\n', self.rest) else {
            return Err(CertFault::Text);
        };
        let line = &self.rest[..end];
        self.rest = &self.rest[end + 1..];
        Ok(line)
    }
}

// The mark that a character stands for.
fn mark_of(byte: u8) -> Option<Mark>
    ensures some { IfSome result (λ mark. byte ≡ mark_character mark) }
    ensures none { IfNone result ((mark : _) → byte ≡ mark_character mark → ⊥) }
{
    match byte {
        b'0' => Some(Mark::Zero),
        b'1' => Some(Mark::One),
        b'x' => Some(Mark::Any),
        _ => None,
    }
}
