ghost use Rattle.std.specs.Prelude.{◌≡◌, ℕ, ◌≤◌, List, [], ◌∷◌, ◌++◌, length};
ghost use Rattle.std.specs.Option.{option_map};
ghost use Rattle.csn_segment.specs.Joining.{answer_to, answer_to_segment, JoinsFor};
ghost use Rattle.csn_segment.specs.Kept.{kept_after};

use crate::header::{ControlHeader, PayloadType, Segment, TRANSACTIONS};
use crate::joined::{Joined, MOST_MESSAGE, SegmentWhy};
use crate::message::{append, copied};
use arrayvec::ArrayVec;
use std::marker::Model;

/// How many octets an RLC/MAC control block has: the MAC header and 22 octets.
const BLOCK_OCTETS: usize = 23;

/// How many octets the MAC header has.
const MAC_HEADER: usize = 1;

/// The most octets of a body: those behind the MAC header and the first optional octet.
const MOST_BODY: usize = 21;

type Body = ArrayVec<u8, MOST_BODY>;

/// Joins the segments of control messages. The blocks come one by one, as one downlink has them.
#[derive(Drop)]
pub struct Joiner {
    /// By RTI, the body of the first segment that waits for its second.
    bodies: [Option<Body>; TRANSACTIONS],
}

impl Model for Joiner {
    ghost use Rattle.std.specs.Prelude.{List, ℕ, Option, map};
    ghost use Rattle.std.specs.Option.{option_map};

    ghost Value = { List (Option (List ℕ)) };

    ghost view = { λ j. map (option_map (λ body. body.items)) j.bodies };
}

impl Joiner {
    /// No blocks so far.
    pub fn new() -> Joiner
        ensures { JoinsFor result [] }
    {
        Joiner {
            bodies: Default::default(),
        }
    }

    /// What the octets of the next block give, behind those before it.
    pub fn take(&mut self, octets: &[u8]) -> Joined
        ensures answer { (blocks : List (List ℕ)) → JoinsFor self.old blocks → result ≡ answer_to blocks octets.now }
        ensures joins { (blocks : List (List ℕ)) → JoinsFor self.old blocks → JoinsFor self.new (blocks ++ octets.now ∷ []) }
        ensures refused { (why : SegmentWhy) → result ≡ Joined.Refused why → self.new ≡ self.old }
    {
        if octets.len() != BLOCK_OCTETS {
            return Joined::Refused(SegmentWhy::BadLength);
        }
        match PayloadType::of(octets) {
            PayloadType::Data => Joined::Refused(SegmentWhy::NotControl),
            PayloadType::Reserved => Joined::Refused(SegmentWhy::Reserved),
            PayloadType::Control => Joined::Whole(copied(&octets[MAC_HEADER..])),
            PayloadType::SegmentedControl => {
                let header = ControlHeader::of(octets);
                let waiting = &mut self.bodies[header.rti as usize];
                join(waiting, header, &octets[header.octets()..])
            }
        }
    }
}

/// What a segment gives, where this first segment of its transaction waits, if one does.
fn join(waiting: &mut Option<Body>, header: ControlHeader, body: &[u8]) -> Joined
    requires { length body.now ≤ MOST_BODY }
    ensures answer { result ≡ answer_to_segment header.segment header.rti (option_map (λ b. b.items) waiting.old) body.now }
    ensures kept { option_map (λ b. b.items) waiting.new ≡ kept_after header.segment (option_map (λ b. b.items) waiting.old) body.now }
{
    match header.segment {
        Segment::Only => {
            *waiting = None;
            Joined::Whole(copied(body))
        }
        Segment::First => {
            *waiting = Some(copied(body));
            Joined::Waiting { rti: header.rti }
        }
        Segment::NotFinal => Joined::Refused(SegmentWhy::NotFinal),
        Segment::Second => {
            let Some(first) = waiting.take() else {
                return Joined::Refused(SegmentWhy::NoFirst);
            };
            let mut message: ArrayVec<u8, MOST_MESSAGE> = copied(first.as_slice());
            append(&mut message, body);
            Joined::Whole(message)
        }
    }
}
