ghost use Rattle.std.specs.Prelude.{◌≡◌, ℕ, ◌+◌, ◌*◌, ◌≤◌, List, [], ◌++◌, length, take, None};
ghost use Rattle.csn_bits.specs.Octets.{bits_of_octets};
ghost use Rattle.csn_fields.specs.declared.event.Event.{Event};
ghost use Rattle.csn_fields.specs.declared.refusal.Ended.TheVariants.{Refused};
ghost use Rattle.csn_fields.specs.declared.refusal.Refusal.{Refusal as RefusalV};
ghost use Rattle.csn_fields.specs.Alternatives.{HasAlternatives};
ghost use Rattle.csn_fields.specs.Places.{innermost};
ghost use Rattle.csn_fields.specs.Follower.{Says, credit};
ghost use Rattle.csn_fields.specs.Reading.{TellsFor, TellsOn, EndsTold, ended_as};

use crate::alternatives::Alternatives;
use crate::event::Events;
use crate::follower::Follower;
use crate::places::Places;
use crate::refusal::{Ended, OpenNode, Refusal};
use crate::track::FieldTrack;
use csn_certify::{Plan, Steps};
use csn_judge::{Judged, Verdict};
use std::sync::ledger::Ledger;

/// Reads the fields of a block that comes in pieces, and tells its events. Nothing is told of bits that cannot be followed.
/// It takes no memory.
#[derive(Drop)]
pub struct FieldReader<'a, E> {
    pub follower: Follower<'a>,
    pub track: FieldTrack<'a, E>,
}

impl<'a, E: Events> FieldReader<'a, E> {
    /// No bits so far, by a plan and the numbers of its alternatives.
    pub fn new(plan: &'a Plan, alternatives: &'a Alternatives, events: E) -> FieldReader<'a, E>
        requires { HasAlternatives plan.now alternatives.now }
        ensures tells { TellsFor result.follower result.track.places [] [] }
        ensures events { result.track.events ≡ events }
        ensures desc { result.follower.desc ≡ plan.now }
        ensures seen { result.follower.seen ≡ 0 }
        ensures credit { credit result.follower ≡ 16 * length plan.now.nodes }
    {
        // its length tells that it is a description, by which bits have one tree
        let _count = plan.len();
        FieldReader {
            follower: Follower::new(plan),
            track: FieldTrack {
                places: Places::new(alternatives),
                events,
            },
        }
    }

    /// How many bits have come, with those of the piece that was refused, and none after it.
    pub fn seen(&self) -> u32
        ensures { result ≡ self.now.follower.seen }
    {
        self.follower.seen()
    }

    /// What is told the events.
    pub fn events(&self) -> &E
        ensures { result.now ≡ self.now.track.events }
    {
        &self.track.events
    }

    /// The next bits of the block: the first `bits` bits of the piece. Behind a refusal nothing is told, and the answer
    /// stays.
    pub fn feed<L: Ledger>(&mut self, piece: &[u8], bits: u32, steps: &mut Steps<L>) -> Verdict
        requires within { bits ≤ 8 * length piece.now }
        requires few { self.old.follower.seen + bits ≤ 524288 }
        ensures tells { (b : List ℕ) (events : List Event) → TellsFor self.old.follower self.old.track.places b events
            → TellsOn E.tells self.new.follower self.new.track.places (b ++ take bits (bits_of_octets piece.now)) events
            self.old.track.events self.new.track.events }
        ensures says { (b : List ℕ) (events : List Event) → TellsFor self.old.follower self.old.track.places b events
            → Says self.old.follower.desc (b ++ take bits (bits_of_octets piece.now)) result }
        ensures desc { self.new.follower.desc ≡ self.old.follower.desc }
        ensures seen { self.old.follower.refused ≡ None → self.new.follower.seen ≡ self.old.follower.seen + bits }
        ensures steps { steps.new + credit self.new.follower
            ≤ steps.old + credit self.old.follower + 16 * length self.old.follower.desc.nodes * bits }
    {
        self.follower.feed_to(piece, bits, &mut self.track, steps)
    }

    /// The block has ended, and another begins: no bits have come of it.
    pub fn next_block<L: Ledger>(&mut self, steps: &mut Steps<L>) -> Ended
        ensures ends { (b : List ℕ) (events : List Event) → TellsFor self.old.follower self.old.track.places b events
            → EndsTold E.tells self.old.follower.desc b events self.old.track.events self.new.track.events result }
        ensures untold { (refusal : RefusalV) → result ≡ Refused refusal → self.new.track.events ≡ self.old.track.events }
        ensures within { (refusal : RefusalV) → result ≡ Refused refusal → refusal.within ≡ innermost self.old.track.places.nodes }
        ensures tells { (b : List ℕ) (events : List Event) → TellsFor self.old.follower self.old.track.places b events
            → TellsFor self.new.follower self.new.track.places [] [] }
        ensures desc { self.new.follower.desc ≡ self.old.follower.desc }
        ensures seen { self.new.follower.seen ≡ 0 }
        ensures credit { credit self.new.follower ≡ 16 * length self.old.follower.desc.nodes }
        ensures steps { steps.new ≤ steps.old + credit self.old.follower }
    {
        csn_desc::laws::trees_have_moves();
        csn_desc::laws::meanings_are_bits();
        let judged = self.follower.next_block_to(&mut self.track, steps);
        let ended = ended_by(judged, self.track.places.innermost());
        self.track.places.restart();
        ended
    }

    /// The block has ended. What was told the events is handed back.
    pub fn finish<L: Ledger>(mut self, steps: &mut Steps<L>) -> (E, Ended)
        ensures ends { (b : List ℕ) (events : List Event) → TellsFor self.entry.follower self.entry.track.places b events
            → EndsTold E.tells self.entry.follower.desc b events self.entry.track.events result.0 result.1 }
        ensures untold { (refusal : RefusalV) → result.1 ≡ Refused refusal → result.0 ≡ self.entry.track.events }
        ensures within { (refusal : RefusalV) → result.1 ≡ Refused refusal → refusal.within ≡ innermost self.entry.track.places.nodes }
        ensures steps { steps.new ≤ steps.old + credit self.entry.follower }
    {
        let ended = self.next_block(steps);
        let FieldReader { track, .. } = self;
        (track.events, ended)
    }
}

/// How a block ends, by what the judges answer and the innermost node that is open then.
fn ended_by(judged: Judged, within: Option<OpenNode>) -> Ended
    ensures { result ≡ ended_as judged within }
{
    match judged {
        Judged::Ok => Ended::Whole,
        Judged::Refused { place } => Ended::Refused(Refusal { place, within }),
    }
}
