//! Blocks that are there as a whole, along one judge.

ghost use Rattle.std.specs.Prelude.{◌≡◌, ◌<◌, ◌≤◌, ◌*◌, [], length, take};
ghost use Rattle.csn_bits.specs.Octets.{bits_of_octets};
ghost use Rattle.csn_judge.specs.declared.verdict.Judged.TheVariants.{Ok};
ghost use Rattle.csn_judge.specs.Blocks.{IsJudged};
ghost use Rattle.csn_fields.specs.declared.refusal.Ended.TheVariants.{Whole};
ghost use Rattle.csn_fields.specs.Alternatives.{HasAlternatives};
ghost use Rattle.csn_fields.specs.Reading.{EndsTold, IsReady};

use crate::alternatives::Alternatives;
use crate::event::Events;
use crate::places::Places;
use crate::track::{FieldTrack, WholeTrack};
use csn_certify::{Plan, Steps};
use csn_judge::{Judge, Judged, Verdict};
use std::marker::Brand;
use std::sync::ledger::{Blank, Ledger};

/// Tells the events of a block that is a string, and hands back what was told. The block is the first `bits` bits of the
/// octets. Where it is no string, nothing is known of what was told: then [`tell_octets`](crate::tell_octets), which takes
/// about twice as long, tells the events with which it begins. It takes no memory.
pub fn tell_string<E: Events>(
    plan: &Plan,
    alternatives: &Alternatives,
    octets: &[u8],
    bits: u32,
    events: E,
) -> (E, Judged)
    requires numbers { HasAlternatives plan.now alternatives.now }
    requires within { bits ≤ 8 * length octets.now }
    requires few { bits ≤ 524288 }
    ensures judged { IsJudged plan.now (take bits (bits_of_octets octets.now)) result.1 }
    ensures told { result.1 ≡ Ok → EndsTold E.tells plan.now (take bits (bits_of_octets octets.now)) [] events result.0 Whole }
{
    let mut reader = StringReader::new(plan, alternatives, events);
    let judged = reader.tell(octets, bits);
    let StringReader { track, .. } = reader;
    (track.fields.events, judged)
}

/// Tells the events of blocks, one after another, as [`tell_string`] does those of one. Each takes less time so, since the
/// room for the open nodes is made once. It takes no memory.
#[derive(Drop)]
pub struct StringReader<'a, E> {
    pub judge: Judge<'a>,
    pub track: WholeTrack<'a, E>,
}

impl<'a, E: Events> StringReader<'a, E> {
    /// No block so far, by a plan and the numbers of its alternatives.
    pub fn new(plan: &'a Plan, alternatives: &'a Alternatives, events: E) -> StringReader<'a, E>
        requires { HasAlternatives plan.now alternatives.now }
        ensures ready { IsReady result.judge result.track.fields.places result.track.alternatives.now }
        ensures desc { result.judge.desc ≡ plan.now }
        ensures events { result.track.fields.events ≡ events }
    {
        // its length tells that it is a description, by which bits have one tree
        let _count = plan.len();
        StringReader {
            judge: Judge::new(plan),
            track: WholeTrack {
                alternatives,
                fields: FieldTrack {
                    places: Places::new(alternatives),
                    events,
                },
            },
        }
    }

    /// Tells the events of a block that is a string: the first `bits` bits of the octets. Where it is no string, nothing is
    /// known of what was told.
    pub fn tell(&mut self, octets: &[u8], bits: u32) -> Judged
        requires ready { IsReady self.old.judge self.old.track.fields.places self.old.track.alternatives.now }
        requires within { bits ≤ 8 * length octets.now }
        requires few { bits ≤ 524288 }
        ensures judged { IsJudged self.old.judge.desc (take bits (bits_of_octets octets.now)) result }
        ensures told { result ≡ Ok → EndsTold E.tells self.old.judge.desc (take bits (bits_of_octets octets.now)) []
            self.old.track.fields.events self.new.track.fields.events Whole }
        ensures ready { IsReady self.new.judge self.new.track.fields.places self.new.track.alternatives.now }
        ensures desc { self.new.judge.desc ≡ self.old.judge.desc }
    {
        self.tell_counted::<Brand>(octets, bits, Blank::new(1))
    }

    /// The same, with a counter of steps.
    fn tell_counted<L: Ledger>(&mut self, octets: &[u8], bits: u32, blank: Blank) -> Judged
        requires name { blank.name ≡ L.name }
        requires parts { blank.parts ≡ L.parts }
        requires some { 0 < blank.parts }
        requires ready { IsReady self.old.judge self.old.track.fields.places self.old.track.alternatives.now }
        requires within { bits ≤ 8 * length octets.now }
        requires few { bits ≤ 524288 }
        ensures judged { IsJudged self.old.judge.desc (take bits (bits_of_octets octets.now)) result }
        ensures told { result ≡ Ok → EndsTold E.tells self.old.judge.desc (take bits (bits_of_octets octets.now)) []
            self.old.track.fields.events self.new.track.fields.events Whole }
        ensures ready { IsReady self.new.judge self.new.track.fields.places self.new.track.alternatives.now }
        ensures desc { self.new.judge.desc ≡ self.old.judge.desc }
    {
        csn_desc::laws::trees_have_moves();
        csn_desc::laws::meanings_are_bits();
        csn_desc::laws::strings_are_followed();
        let mut steps = Steps::<L>::new(blank);
        let verdict = self
            .judge
            .feed_to(octets, bits, &mut self.track, &mut steps);
        let judged = match verdict {
            Verdict::Going => self.judge.next_block_to(&mut self.track, &mut steps),
            Verdict::Refused { place } => {
                let _again = self.judge.next_block(&mut steps);
                Judged::Refused { place }
            }
        };
        self.track.fields.places.restart();
        judged
    }
}
