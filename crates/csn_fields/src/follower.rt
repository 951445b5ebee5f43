ghost use Rattle.std.specs.Prelude.{◌≡◌, ℕ, ◌+◌, ◌*◌, ◌≤◌, List, [], ◌++◌, length, take, None};
ghost use Rattle.csn_bits.specs.Octets.{bits_of_octets};
ghost use Rattle.csn_desc.specs.declared.moves.Move.{Move as MoveV};
ghost use Rattle.csn_judge.specs.Judging.{opened, refusal_of};
ghost use Rattle.csn_judge.specs.Told.{Tells};
ghost use Rattle.csn_judge.specs.declared.verdict.Judged.TheVariants.{Refused as no_string};
ghost use Rattle.csn_fields.specs.Follower.{FollowsFor, FollowsOn, Says, Ends, credit, told_of};

use csn_certify::{Plan, Steps};
use csn_judge::{Judge, Judged, Track, Verdict};
use std::marker::Model;
use std::sync::ledger::Ledger;

/// A judge of a block, and one that goes ahead of it. So moves are told for bits alone that can be followed.
#[derive(Drop)]
pub struct Follower<'a> {
    ahead: Judge<'a>,
    judge: Judge<'a>,
    /// Where the bits were refused, if they were.
    refused: Option<u32>,
}

impl<'a> Model for Follower<'a> {
    ghost use Rattle.csn_fields.specs.Follower.{FollowerV, follower_of, IsFollower};

    ghost Value = { FollowerV };

    ghost view = { follower_of };

    ghost invariant = { IsFollower };
}

impl<'a> Follower<'a> {
    /// No bits so far.
    pub fn new(plan: &'a Plan) -> Follower<'a>
        ensures follows { FollowsFor result [] [] }
        ensures opened { opened result.judge ≡ [] }
        ensures desc { result.desc ≡ plan.now }
        ensures seen { result.seen ≡ 0 }
        ensures credit { credit result ≡ 16 * length plan.now.nodes }
    {
        Follower {
            ahead: Judge::new(plan),
            judge: Judge::new(plan),
            refused: None,
        }
    }

    /// How many bits have come, with those of the piece that was refused, and none after it.
    pub fn seen(&self) -> u32
        ensures { result ≡ self.now.seen }
    {
        self.ahead.seen()
    }

    /// The next bits of the block: the first `bits` bits of the piece. The moves are told for those that can be followed.
    /// Behind a refusal nothing is told, and the answer stays.
    pub fn feed_to<T: Track, L: Ledger>(
        &mut self,
        piece: &[u8],
        bits: u32,
        track: &mut T,
        steps: &mut Steps<L>,
    ) -> Verdict
        requires within { bits ≤ 8 * length piece.now }
        requires few { self.old.seen + bits ≤ 524288 }
        requires fits { T.fits track.old self.old.desc }
        ensures follows { (b : List ℕ) (moves : List MoveV) → FollowsFor self.old b moves
            → FollowsOn (λ around made. Tells self.old.desc T.takes (opened self.old.judge) made around track.old track.new) self.new
            (b ++ take bits (bits_of_octets piece.now)) moves }
        ensures says { (b : List ℕ) (moves : List MoveV) → FollowsFor self.old b moves
            → Says self.old.desc (b ++ take bits (bits_of_octets piece.now)) result }
        ensures desc { self.new.desc ≡ self.old.desc }
        ensures seen { self.old.refused ≡ None → self.new.seen ≡ self.old.seen + bits }
        ensures steps { steps.new + credit self.new ≤ steps.old + credit self.old + 16 * length self.old.desc.nodes * bits }
    {
        let was = self.refused;
        let before = self.ahead.seen();
        let verdict = self.ahead.feed(piece, bits, steps);
        self.refused = refusal_of(verdict);
        let told = told_of(was, before, bits, verdict);
        // all of these bits can be followed
        let _going = self.judge.feed_to(piece, told, track, steps);
        verdict
    }

    /// The block has ended, and another begins. The moves are told where it is a string.
    pub fn next_block_to<T: Track, L: Ledger>(
        &mut self,
        track: &mut T,
        steps: &mut Steps<L>,
    ) -> Judged
        requires fits { T.fits track.old self.old.desc }
        ensures ends { (b : List ℕ) (moves : List MoveV) → FollowsFor self.old b moves
            → Ends (λ around made. Tells self.old.desc T.takes (opened self.old.judge) made around track.old track.new) self.old b moves result }
        ensures stays { (place : ℕ) → result ≡ no_string place → track.new ≡ track.old }
        ensures follows { FollowsFor self.new [] [] }
        ensures opened { opened self.new.judge ≡ [] }
        ensures desc { self.new.desc ≡ self.old.desc }
        ensures seen { self.new.seen ≡ 0 }
        ensures credit { credit self.new ≡ 16 * length self.old.desc.nodes }
        ensures steps { steps.new ≤ steps.old + credit self.old }
    {
        csn_desc::laws::strings_are_followed();
        let judged = self.ahead.next_block(steps);
        self.refused = None;
        match judged {
            // so it is for the other judge, which has the same bits
            Judged::Ok => {
                let _ok = self.judge.next_block_to(track, steps);
            }
            Judged::Refused { .. } => {
                let _untold = self.judge.next_block(steps);
            }
        }
        judged
    }
}

/// Where bits are refused, if they are.
fn refusal_of(verdict: Verdict) -> Option<u32>
    ensures { result ≡ refusal_of verdict }
{
    match verdict {
        Verdict::Going => None,
        Verdict::Refused { place } => Some(place),
    }
}

/// How many bits of a piece are told, where so many had come before it.
fn told_of(was: Option<u32>, before: u32, bits: u32, verdict: Verdict) -> u32
    ensures told { result ≡ told_of was before bits verdict }
    ensures within { result ≤ bits }
{
    match (was, verdict) {
        (Some(_), _) => 0,
        (None, Verdict::Going) => bits,
        (None, Verdict::Refused { place }) => place.saturating_sub(before).min(bits),
    }
}
