//! A block that comes in pieces.

ghost use Rattle.std.specs.Prelude.{◌≡◌, ◌+◌, ◌*◌, ◌<◌, ◌≤◌, ◌++◌, List, ℕ, length};
ghost use Rattle.csn_fields.specs.Follower.{Says};
ghost use Rattle.csn_judge.specs.Blocks.{IsJudged};
ghost use Rattle.csn_rule.specs.Blocks.{block_in};
ghost use Rattle.csn_rule.specs.Streams.{GoesOn, HasCome, JudgesOn, at_begin, seen_of};

use crate::rule::Rule;
use csn_certify::Steps;
use csn_judge::{Judge, Judged, Paused, Verdict};
use std::boxed::Box;
use std::marker::{Brand, Model};
use std::sync::ledger::{Blank, Ledger};

/// A rule, and a block of it that comes in pieces. A contract sees the description, and the judge of the block.
#[derive(Drop)]
pub struct Stream {
    rule: Box<Rule>,
    /// The judge of the block, from its first piece on.
    block: Option<Paused>,
}

impl Model for Stream {
    ghost use Rattle.csn_rule.specs.Streams.{StreamV, GoesOn};

    ghost Value = { StreamV };

    ghost view = { λ s. record { desc = s.rule.value; block = s.block } };

    ghost invariant = { λ s. GoesOn s.rule.value s.block };
}

impl Stream {
    /// No bits so far, by a rule.
    pub fn new(rule: Box<Rule>) -> Stream
        ensures { result ≡ at_begin rule.value }
    {
        Stream { rule, block: None }
    }

    /// The rule, without the block.
    pub fn into_rule(self) -> Box<Rule>
        ensures { result.value ≡ self.desc }
    {
        self.rule
    }

    /// Forgets the block: no bits so far.
    pub fn begin(&mut self)
        ensures { self.new ≡ at_begin self.old.desc }
    {
        self.block = None;
    }

    /// How many bits have come, with those of the piece that was refused, and none after it.
    pub fn seen(&self) -> u32
        ensures { result ≡ seen_of self.now }
    {
        match &self.block {
            None => 0,
            Some(paused) => paused.seen(),
        }
    }

    /// The next bits of the block: the first `bits` bits of the octets. Behind a refusal the answer stays. It takes no memory.
    pub fn push(&mut self, octets: &[u8], bits: u32) -> Verdict
        requires within { bits ≤ 8 * length octets.now }
        requires few { seen_of self.old + bits ≤ 524288 }
        ensures desc { self.new.desc ≡ self.old.desc }
        ensures comes { (b : List ℕ) → HasCome self.old b → HasCome self.new (b ++ block_in octets.now bits) }
        ensures says { (b : List ℕ) → HasCome self.old b → Says self.old.desc (b ++ block_in octets.now bits) result }
    {
        self.push_counted::<Brand>(octets, bits, Blank::new(1))
    }

    /// The same, with a counter of steps.
    fn push_counted<L: Ledger>(&mut self, octets: &[u8], bits: u32, blank: Blank) -> Verdict
        requires name { blank.name ≡ L.name }
        requires parts { blank.parts ≡ L.parts }
        requires some { 0 < blank.parts }
        requires within { bits ≤ 8 * length octets.now }
        requires few { seen_of self.old + bits ≤ 524288 }
        ensures desc { self.new.desc ≡ self.old.desc }
        ensures comes { (b : List ℕ) → HasCome self.old b → HasCome self.new (b ++ block_in octets.now bits) }
        ensures says { (b : List ℕ) → HasCome self.old b → Says self.old.desc (b ++ block_in octets.now bits) result }
    {
        let mut steps = Steps::<L>::new(blank);
        let mut judge = judge_of(&self.rule, self.block.take());
        let verdict = judge.feed(octets, bits, &mut steps);
        self.block = Some(judge.pause());
        verdict
    }

    /// The block has ended: whether it is a string, or how many of its bits can be followed. Another block begins.
    pub fn end(&mut self) -> Judged
        ensures judged { (b : List ℕ) → HasCome self.old b → IsJudged self.old.desc b result }
        ensures begins { self.new ≡ at_begin self.old.desc }
    {
        self.end_counted::<Brand>(Blank::new(1))
    }

    /// The same, with a counter of steps.
    fn end_counted<L: Ledger>(&mut self, blank: Blank) -> Judged
        requires name { blank.name ≡ L.name }
        requires parts { blank.parts ≡ L.parts }
        requires some { 0 < blank.parts }
        ensures judged { (b : List ℕ) → HasCome self.old b → IsJudged self.old.desc b result }
        ensures begins { self.new ≡ at_begin self.old.desc }
    {
        let mut steps = Steps::<L>::new(blank);
        judge_of(&self.rule, self.block.take()).finish(&mut steps)
    }
}

/// The judge of a block, new where no bits have come.
fn judge_of(rule: &Rule, block: Option<Paused>) -> Judge<'_>
    requires { GoesOn rule.now block }
    ensures desc { result.desc ≡ rule.now }
    ensures seen { result.seen ≡ seen_of (record { desc = rule.now; block = block }) }
    ensures judges { (b : List ℕ) → HasCome (record { desc = rule.now; block = block }) b → JudgesOn result b }
{
    match block {
        None => Judge::new(rule.plan()),
        Some(paused) => Judge::resume(rule.plan(), paused),
    }
}
