ghost use Rattle.std.specs.Prelude.{◌≡◌, ◌≤◌, ◌++◌, ℕ, List, [], Some, IfSome, length, drop};
ghost use Rattle.csn_catalogue.specs.Entries.{entry_word};
ghost use Rattle.csn_replay.specs.Head.{HeadOf, block_so_far};
ghost use Rattle.csn_replay.specs.declared.head.CaptureHead.TheVariants.{Word, Block, Missing};

use arrayvec::ArrayVec;
use csn_catalogue::{Entry, entry_of};
use memchr::memchr;
use std::mem;

/// The most bytes of the word of an entry: those of `downlink`.
const LONGEST_WORD: usize = 8;

/// How far the head of a capture's line was read.
#[derive(Clone, Debug, Drop)]
pub enum CaptureHead {
    /// What may begin the word of an entry; no space has come.
    Word(ArrayVec<u8, LONGEST_WORD>),
    /// The word and the space have come: what follows is the block.
    Block(Entry),
    /// The line is of no entry.
    Missing,
}

impl CaptureHead {
    /// Nothing of a line.
    pub fn new() -> CaptureHead
        ensures { HeadOf result [] }
    {
        CaptureHead::Word(ArrayVec::new())
    }

    /// Takes the next bytes of the line. Answers how many of the first of them are not of the block.
    pub fn take(&mut self, bytes: &[u8]) -> usize
        ensures head { (line : List ℕ) → HeadOf self.old line → HeadOf self.new (line ++ bytes.now) }
        ensures block { (line : List ℕ) → HeadOf self.old line
            → block_so_far self.new (line ++ bytes.now) ≡ block_so_far self.old line ++ drop result bytes.now }
        ensures within { result ≤ length bytes.now }
        ensures block_stays { (entry : _) → self.old ≡ Block entry → self.new ≡ self.old }
        ensures missing_stays { self.old ≡ Missing → self.new ≡ self.old }
    {
        let word = match self {
            CaptureHead::Word(word) => mem::replace(word, ArrayVec::new()),
            CaptureHead::Block(_) => return 0,
            CaptureHead::Missing => return bytes.len(),
        };
        let (head, from) = word_goes_on(word, bytes);
        *self = head;
        from
    }
}

/// The head of a line that has this much of a word and goes on with these bytes, and how many of the first of them are
/// not of the block.
fn word_goes_on(mut word: ArrayVec<u8, LONGEST_WORD>, bytes: &[u8]) -> (CaptureHead, usize)
    ensures head { (line : List ℕ) → HeadOf (Word word) line → HeadOf result.0 (line ++ bytes.now) }
    ensures block { (line : List ℕ) → HeadOf (Word word) line → block_so_far result.0 (line ++ bytes.now) ≡ drop result.1 bytes.now }
    ensures within { result.1 ≤ length bytes.now }
{
    let Some(word_end) = memchr(b' ', bytes) else {
        if word.try_extend_from_slice(bytes).is_err() {
            return (CaptureHead::Missing, bytes.len());
        }
        return (CaptureHead::Word(word), bytes.len());
    };
    match entry_of_parts(&mut word, &bytes[..word_end]) {
        Some(entry) => (CaptureHead::Block(entry), word_end + 1),
        None => (CaptureHead::Missing, bytes.len()),
    }
}

/// The entry whose word is this one and then the rest, which it takes up.
fn entry_of_parts(word: &mut ArrayVec<u8, LONGEST_WORD>, rest: &[u8]) -> Option<Entry>
    ensures its_word { IfSome result (λ entry. word.old.items ++ rest.now ≡ entry_word entry) }
    ensures of_each_word { (entry : _) → word.old.items ++ rest.now ≡ entry_word entry → result ≡ Some entry }
{
    word.try_extend_from_slice(rest).ok()?;
    entry_of(word)
}
