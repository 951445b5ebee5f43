ghost use Rattle.std.specs.Prelude.{◌≡◌, ◌<◌, false, [], ◌∷◌, length, reverse, slice_get, Some};
ghost use Rattle.csn_judge.specs.declared.frame.Frame.TheVariants as frame;
ghost use Rattle.csn_judge.specs.Turns.{begun_by, over};

use crate::frame::Frame;
use crate::pace::Pace;
use arrayvec::ArrayVec;
use csn_certify::{MOST_NUMBERS, Number, Plan};
use csn_desc::{MOST_DEPTH, Parts};

/// Goes through the nodes of a description along the bits of a block, one frame's turn after another.
#[derive(Drop)]
pub(crate) struct Machine<'a> {
    pub plan: &'a Plan,
    /// The nodes that have begun and not ended, each inside the one before it; and one that begins next.
    pub frames: ArrayVec<Frame, MOST_DEPTH>,
    /// The numbers of the labelled fields that the innermost node sees and that counts stand on.
    pub values: ArrayVec<Number, MOST_NUMBERS>,
    pub pace: Pace,
}

impl<'a> Machine<'a> {
    /// The root begins next.
    pub fn new(plan: &'a Plan) -> Machine<'a>
        ensures frames { result.frames.items ≡ frame.Begin 0 ∷ [] }
        ensures values { result.values.items ≡ [] }
        ensures pace { result.pace ≡ record { next = 1; again = false } }
        ensures plan { result.plan.now ≡ plan.now }
    {
        let mut machine = Machine {
            plan,
            frames: ArrayVec::new(),
            values: ArrayVec::new(),
            pace: Pace::new(),
        };
        machine.restart();
        machine
    }

    /// The root begins next, as in a new machine.
    pub fn restart(&mut self)
        ensures frames { self.new.frames.items ≡ frame.Begin 0 ∷ [] }
        ensures values { self.new.values.items ≡ [] }
        ensures pace { self.new.pace ≡ record { next = 1; again = false } }
        ensures plan { self.new.plan ≡ self.old.plan }
    {
        self.frames.clear();
        self.values.clear();
        self.pace = Pace::new();
        self.pace.begin(0);
        self.frames.push(Frame::Begin { node: 0 });
    }

    /// A part begins next, and behind it the node that it is in goes on as this frame says.
    #[inline(always)]
    pub fn begin(&mut self, part: u16, behind: Frame)
        requires few { part < 65535 }
        requires room { length self.old.frames.items < 63 }
        ensures frames { reverse self.new.frames.items ≡ behind ∷ reverse self.old.frames.items }
        ensures values { self.new.values ≡ self.old.values }
        ensures pace { self.new.pace ≡ begun_by part self.old.pace }
        ensures plan { self.new.plan ≡ self.old.plan }
    {
        self.pace.begin(part);
        self.frames.push(behind);
    }
}

/// A frame is put on others, if there is one.
#[inline(always)]
pub(crate) fn put(frames: &mut ArrayVec<Frame, MOST_DEPTH>, behind: Option<Frame>)
    requires { length frames.old.items < 64 }
    ensures { reverse frames.new.items ≡ over behind (reverse frames.old.items) }
{
    if let Some(frame) = behind {
        frames.push(frame);
    }
}

/// The part at a place of some parts.
#[inline(always)]
pub(crate) fn part_at(parts: &Parts, at: u32) -> u16
    requires { at < length parts.now }
    ensures { slice_get parts.now at ≡ Some result }
{
    // a u16 holds how many they are, and so a place of them
    let _count = parts.len();
    parts.get(at as u16)
}
