ghost use Rattle.std.specs.Prelude.{◌≡◌, ◌↔◌, ◌∷◌, ◌++◌, IsTrue, IfOk, OnOk};
ghost use Rattle.csn_desc.specs.Kept.{items_in};
ghost use Rattle.csn_desc.specs.Label.{IsLabel, is_label};
ghost use Rattle.csn_lexer.specs.Word.{IsWord, is_word};

use crate::kept::Kept;
use csn_bits::NoMemory;
use csn_lexer::is_word;
use std::alloc::Global;
use std::marker::Model;
use thiserror::Error;

/// The name of a rule or of a labelled part: words with one space between. A contract sees its bytes.
#[derive(Drop)]
pub struct Label {
    bytes: Kept<u8>,
}

impl Model for Label {
    ghost use Rattle.std.specs.Prelude.{List, ℕ};
    ghost use Rattle.csn_desc.specs.Kept.{items_in};
    ghost use Rattle.csn_desc.specs.Label.{IsLabel};

    ghost Value = { List ℕ };

    ghost view = { λ l. items_in l.bytes };

    ghost invariant = { λ l. IsLabel (items_in l.bytes) };
}

/// Why there is no label of some bytes.
#[derive(Clone, Copy, Debug, PartialEq, Eq, Hash, Error)]
pub enum LabelFault {
    #[error("a label is words with one space between")]
    BadLabel,
    #[error("out of memory")]
    NoMemory,
}

impl Label {
    /// The label that these bytes spell.
    pub fn new(alloc: Global, words: &[u8]) -> Result<Label, LabelFault>
        ensures ok { IfOk result (λ label. label ≡ words.now) }
        ensures valid { OnOk result (IsLabel words.now) }
        ensures bad { (result ≡ Err LabelFault.BadLabel) ↔ (¬ IsLabel words.now) }
    {
        if !is_label(words) {
            return Err(LabelFault::BadLabel);
        }
        match Kept::from_slice(alloc, words) {
            Ok(bytes) => Ok(Label { bytes }),
            Err(_) => Err(LabelFault::NoMemory),
        }
    }

    /// The label that is one word.
    pub fn of_word(alloc: Global, word: &[u8]) -> Result<Label, NoMemory>
        requires { IsWord word.now }
        ensures { IfOk result (λ label. label ≡ word.now) }
    {
        let bytes = Kept::from_slice(alloc, word)?;
        Ok(Label { bytes })
    }

    /// This label and one word more.
    pub fn and(self, word: &[u8]) -> Result<Label, NoMemory>
        requires { IsWord word.now }
        ensures { IfOk result (λ label. label ≡ self ++ 32 ∷ word.now) }
    {
        let mut bytes = self.bytes.into_own()?;
        bytes.push(b' ')?;
        bytes.extend_from_slice(word)?;
        Ok(Label {
            bytes: Kept::Own(bytes),
        })
    }

    /// The bytes as they are written.
    pub fn bytes(&self) -> &[u8]
        ensures value { result.now ≡ self.now }
        ensures label { IsLabel result.now }
    {
        self.bytes.as_slice()
    }

    /// The same label. Copies of a long one take no memory from now on.
    pub fn share(self) -> Result<Label, NoMemory>
        ensures { IfOk result (λ label. label ≡ self) }
    {
        let bytes = self.bytes.share()?;
        Ok(Label { bytes })
    }

    /// The same label again. A copy of a shared label takes no memory.
    pub fn copy(&self, alloc: Global) -> Result<Label, NoMemory>
        ensures { IfOk result (λ label. label ≡ self.now) }
    {
        let bytes = self.bytes.copy(alloc)?;
        Ok(Label { bytes })
    }
}

/// Whether the bytes are words with one space between.
pub fn is_label(bytes: &[u8]) -> bool
    ensures { result ≡ is_label bytes.now }
{
    bytes.split(|byte: &u8| *byte == b' ').all(
        |word: &[u8]| -> bool
            ensures { result ≡ is_word word.now }
        { is_word(word) },
    )
}
