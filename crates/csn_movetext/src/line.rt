ghost use Rattle.std.specs.Prelude.{◌≡◌, ℕ, ◌+◌, ◌*◌, ◌<◌, ◌≤◌, List, [], ◌∷◌, ◌++◌, length, take, drop, IfOk, OnErr};
ghost use Rattle.csn_bits.specs.declared.feed.TheConstants.{MOST_LINE};
ghost use Rattle.csn_bits.specs.Feed.{Fed, octets_given, seen_of};
ghost use Rattle.csn_movetext.specs.Openings.{HasOpenings};
ghost use Rattle.csn_movetext.specs.Lines.{ReadsLine, EndsText, EndsLine, credit};

use crate::octet_text::OctetText;
use crate::openings::Openings;
use csn_bits::{HexEnd, HexFeed, HexStep, LineWhy};
use csn_certify::{Plan, Steps};
use std::alloc::{AllocError, Global};
use std::marker::{Brand, Model};
use std::mem;
use std::sync::ledger::{Blank, Ledger};

/// The most bytes of a line that are decoded at once.
const MOST_AT_ONCE: usize = 128;

/// The most octets that they give, with one that was held back before.
const MOST_GIVEN: usize = MOST_AT_ONCE / 2 + 1;

/// Writes the tree of the block that a line spells, in the form of the openings, while the line comes. Nothing is kept of
/// the line but its last octet.
#[derive(Drop)]
pub struct LineText<'a> {
    feed: HexFeed,
    given: OctetText<'a>,
}

/// What a line came to.
#[derive(Clone, Copy, Debug, Drop, PartialEq, Eq)]
pub enum LineEnd {
    /// Its block of so many bits has a tree.
    Text { bits: u32 },
    /// Its block of so many bits has none: only the first `place` can be followed.
    Refused { place: u32, bits: u32 },
    /// It is no block line.
    Fault(LineWhy),
}

/// How many bytes of a line were taken, and where the octets stand that they give.
#[derive(Drop)]
struct Taken {
    bytes: usize,
    from: usize,
    to: usize,
}

impl<'a> Model for LineText<'a> {
    ghost use Rattle.csn_movetext.specs.Lines.{LineV, line_of, IsLineText};

    ghost Value = { LineV };

    ghost view = { line_of };

    ghost invariant = { IsLineText };
}

impl<'a> LineText<'a> {
    /// Nothing of a line.
    pub fn new(alloc: Global, plan: &'a Plan, openings: &'a Openings) -> LineText<'a>
        requires { HasOpenings plan.now openings.now }
        ensures reads { ReadsLine result [] }
        ensures form { result.form ≡ openings.now.form }
        ensures desc { result.desc ≡ plan.now }
        ensures seen { result.seen ≡ 0 }
        ensures credit { credit result ≡ 8 * length plan.now.nodes }
    {
        LineText {
            feed: HexFeed::new(),
            given: OctetText::new(alloc, plan, openings),
        }
    }

    /// How many bytes of the line have come.
    pub fn seen(&self) -> u32
        ensures { result ≡ self.now.seen }
    {
        self.feed.seen()
    }

    /// The next bytes of the line. Where the text of its block wants more memory than there is, the end of the line tells
    /// it.
    pub fn take(&mut self, bytes: &[u8])
        requires few { self.old.seen + length bytes.now ≤ MOST_LINE }
        ensures reads { (line : List ℕ) → ReadsLine self.old line → ReadsLine self.new (line ++ bytes.now) }
        ensures seen { self.new.seen ≡ self.old.seen + length bytes.now }
        ensures form { self.new.form ≡ self.old.form }
        ensures desc { self.new.desc ≡ self.old.desc }
    {
        self.take_anew::<Brand>(bytes, Blank::new(1))
    }

    // The same with a counter of its own.
    fn take_anew<L: Ledger>(&mut self, bytes: &[u8], blank: Blank)
        requires name { blank.name ≡ L.name }
        requires parts { blank.parts ≡ L.parts }
        requires some { 0 < blank.parts }
        requires few { self.old.seen + length bytes.now ≤ MOST_LINE }
        ensures reads { (line : List ℕ) → ReadsLine self.old line → ReadsLine self.new (line ++ bytes.now) }
        ensures seen { self.new.seen ≡ self.old.seen + length bytes.now }
        ensures form { self.new.form ≡ self.old.form }
        ensures desc { self.new.desc ≡ self.old.desc }
    {
        let mut steps = Steps::<L>::new(blank);
        self.take_counted(bytes, &mut steps);
    }

    /// The same with a counter of steps: a byte takes at most those of 8 bits.
    pub fn take_counted<L: Ledger>(&mut self, bytes: &[u8], steps: &mut Steps<L>)
        requires few { self.old.seen + length bytes.now ≤ MOST_LINE }
        ensures reads { (line : List ℕ) → ReadsLine self.old line → ReadsLine self.new (line ++ bytes.now) }
        ensures seen { self.new.seen ≡ self.old.seen + length bytes.now }
        ensures form { self.new.form ≡ self.old.form }
        ensures desc { self.new.desc ≡ self.old.desc }
        ensures steps { steps.new + credit self.new ≤ steps.old + credit self.old + 8 * length self.old.desc.nodes * (8 * length bytes.now) }
    {
        let mut room = [0; MOST_GIVEN];
        let mut at = 0;
        while at < bytes.len() {
            let until = bytes.len().min(at + MOST_AT_ONCE);
            at += self.take_some(&bytes[at..until], &mut room, steps);
        }
    }

    // Takes at least one of some bytes, and tells how many.
    fn take_some<L: Ledger>(
        &mut self,
        bytes: &[u8],
        room: &mut [u8; MOST_GIVEN],
        steps: &mut Steps<L>,
    ) -> usize
        requires some { 0 < length bytes.now }
        requires at_once { length bytes.now ≤ MOST_AT_ONCE }
        requires few { self.old.seen + length bytes.now ≤ MOST_LINE }
        ensures some { 0 < result }
        ensures within { result ≤ length bytes.now }
        ensures reads { (line : List ℕ) → ReadsLine self.old line → ReadsLine self.new (line ++ take result bytes.now) }
        ensures seen { self.new.seen ≡ self.old.seen + result }
        ensures form { self.new.form ≡ self.old.form }
        ensures desc { self.new.desc ≡ self.old.desc }
        ensures steps { steps.new + credit self.new ≤ steps.old + credit self.old + 8 * length self.old.desc.nodes * (8 * result) }
    {
        let taken = take_next(&mut self.feed, bytes, room);
        self.given.take(&room[taken.from..taken.to], steps);
        taken.bytes
    }

    /// The line has ended, and the next begins: the text of its block is written behind `out`, or it is told why there
    /// is none. After an error some bytes may stand behind `out`.
    pub fn end(&mut self, out: &mut Vec<u8>) -> Result<LineEnd, AllocError>
        ensures ends { IfOk result (λ end. (line : List ℕ) → ReadsLine self.old line
            → EndsText self.old.form self.old.desc line end out.old.items out.new.items) }
        ensures anew { ReadsLine self.new [] }
        ensures seen { self.new.seen ≡ 0 }
        ensures form { self.new.form ≡ self.old.form }
        ensures desc { self.new.desc ≡ self.old.desc }
        ensures err { OnErr result ((tail : List ℕ) × (out.new.items ≡ out.old.items ++ tail)) }
    {
        self.end_anew::<Brand>(out, Blank::new(1))
    }

    // The same with a counter of its own.
    fn end_anew<L: Ledger>(
        &mut self,
        out: &mut Vec<u8>,
        blank: Blank,
    ) -> Result<LineEnd, AllocError>
        requires name { blank.name ≡ L.name }
        requires parts { blank.parts ≡ L.parts }
        requires some { 0 < blank.parts }
        ensures { EndsLine self.old self.new out.old.items out.new.items result }
    {
        let mut steps = Steps::<L>::new(blank);
        self.end_along(out, &mut steps)
    }

    /// The same with a counter of steps: it takes at most those of 8 bits and of the end of a block.
    pub fn end_counted<L: Ledger>(
        &mut self,
        out: &mut Vec<u8>,
        steps: &mut Steps<L>,
    ) -> Result<LineEnd, AllocError>
        ensures ends { IfOk result (λ end. (line : List ℕ) → ReadsLine self.old line
            → EndsText self.old.form self.old.desc line end out.old.items out.new.items) }
        ensures anew { ReadsLine self.new [] }
        ensures seen { self.new.seen ≡ 0 }
        ensures form { self.new.form ≡ self.old.form }
        ensures desc { self.new.desc ≡ self.old.desc }
        ensures err { OnErr result ((tail : List ℕ) × (out.new.items ≡ out.old.items ++ tail)) }
        ensures steps { steps.new + credit self.new ≤ steps.old + credit self.old + 8 * length self.old.desc.nodes * 9 }
    {
        self.end_along(out, steps)
    }

    // The same, as one relation.
    #[inline(always)]
    fn end_along<L: Ledger>(
        &mut self,
        out: &mut Vec<u8>,
        steps: &mut Steps<L>,
    ) -> Result<LineEnd, AllocError>
        ensures ends { EndsLine self.old self.new out.old.items out.new.items result }
        ensures steps { steps.new + credit self.new ≤ steps.old + credit self.old + 8 * length self.old.desc.nodes * 9 }
    {
        let feed = mem::replace(&mut self.feed, HexFeed::new());
        match feed.finish() {
            HexEnd::Empty => self.given.end(0, 0, out, steps),
            HexEnd::Last { octet, bits } => self.given.end(octet, bits, out, steps),
            HexEnd::Fault(why) => {
                self.given.give_up(steps);
                Ok(LineEnd::Fault(why))
            }
        }
    }
}

// Takes at least one of some bytes of a line: the pairs of digits that they begin with, or one byte. The octets that they
// give stand in the room then.
fn take_next(feed: &mut HexFeed, bytes: &[u8], room: &mut [u8]) -> Taken
    requires some { 0 < length bytes.now }
    requires room { length bytes.now + 2 ≤ 2 * length room.old }
    requires few { seen_of feed.old + length bytes.now ≤ MOST_LINE }
    ensures fed { (line : List ℕ) → Fed feed.old line → Fed feed.new (line ++ take result.bytes bytes.now) }
    ensures given { (line : List ℕ) → Fed feed.old line
        → octets_given (line ++ take result.bytes bytes.now) ≡ octets_given line ++ drop result.from (take result.to room.new) }
    ensures some { 0 < result.bytes }
    ensures within { result.bytes ≤ length bytes.now }
    ensures count { result.to ≤ result.from + result.bytes }
    ensures seen { seen_of feed.new ≡ seen_of feed.old + result.bytes }
    ensures from { result.from ≤ result.to }
    ensures to { result.to ≤ length room.new }
    ensures room { length room.new ≡ length room.old }
{
    match feed.pairs(bytes, room) {
        Some(pairs) => Taken {
            bytes: pairs.bytes,
            from: pairs.from,
            to: pairs.bytes / 2,
        },
        None => take_byte(feed, bytes[0], room),
    }
}

// Takes one byte of a line.
fn take_byte(feed: &mut HexFeed, byte: u8, room: &mut [u8]) -> Taken
    requires room { 0 < length room.old }
    requires few { seen_of feed.old < MOST_LINE }
    ensures fed { (line : List ℕ) → Fed feed.old line → Fed feed.new (line ++ byte ∷ []) }
    ensures given { (line : List ℕ) → Fed feed.old line
        → octets_given (line ++ byte ∷ []) ≡ octets_given line ++ drop result.from (take result.to room.new) }
    ensures bytes { result.bytes ≡ 1 }
    ensures count { result.to ≤ result.from + 1 }
    ensures seen { seen_of feed.new ≡ seen_of feed.old + 1 }
    ensures from { result.from ≤ result.to }
    ensures to { result.to ≤ length room.new }
    ensures room { length room.new ≡ length room.old }
{
    match feed.byte(byte) {
        HexStep::Nothing => Taken {
            bytes: 1,
            from: 0,
            to: 0,
        },
        HexStep::Octet(octet) => {
            room[0] = octet;
            Taken {
                bytes: 1,
                from: 0,
                to: 1,
            }
        }
    }
}
