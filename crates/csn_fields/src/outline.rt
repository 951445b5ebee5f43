//! What is told of a node all of whose bits are read at once.

ghost use Rattle.std.specs.Prelude.{◌≤◌};

use crate::event::{Event, Events};
use crate::leaf::{Leaf, LeafKind, Role};
use csn_bits::NoMemory;
use std::alloc::Global;
use std::marker::Model;

/// The most bits that stand behind a mark.
const MOST_BEHIND: u32 = 56;

/// What is told at a mark.
#[derive(Clone, Copy)]
pub(crate) enum Form {
    /// A node begins that is no leaf.
    Begin,
    /// A leaf of this kind has ended.
    Leaf(LeafKind),
    /// A node ends that is no leaf.
    End,
}

/// An event of a node, with gaps for where the node ends and the number that its bits write.
#[derive(Clone, Copy)]
pub(crate) struct Mark {
    pub node: u16,
    pub form: Form,
    /// How many bits it has.
    pub width: u32,
    /// How many bits of the node stand behind these.
    pub behind: u32,
    ghost few: { width ≤ 56 },
    ghost low: { behind ≤ 56 },
}

impl Mark {
    ghost use Rattle.std.specs.Prelude.{◌≡◌};
    ghost use Rattle.csn_fields.specs.Outlines.{IsMark, mark_event};

    /// A mark of a node.
    pub fn new(node: u16, form: Form, width: u32, behind: u32) -> Mark
        requires few { width ≤ 56 }
        requires low { behind ≤ 56 }
        ensures { IsMark result node form width behind }
    {
        Mark {
            node,
            form,
            width,
            behind,
        }
    }

    /// Its event, of a node that ends at a place.
    #[inline(always)]
    fn event(self, role: Role, end: u32, number: u64) -> Event
        ensures { result ≡ mark_event role self end number }
    {
        let node = self.node;
        let place = end.saturating_sub(self.behind + self.width);
        match self.form {
            Form::Begin => Event::Begin { node, role, place },
            Form::Leaf(kind) => Event::Leaf(Leaf {
                node,
                kind,
                role,
                place,
                bits: self.width,
                number: Some((number >> self.behind) % (1 << self.width)),
            }),
            Form::End => Event::End { node, place },
        }
    }
}

/// The events of a node whose strings have as many bits each, with gaps. A contract sees them from the first one on.
#[derive(Drop)]
pub(crate) struct Outline {
    /// The last one first.
    marks: Vec<Mark>,
}

impl Model for Outline {
    ghost use Rattle.std.specs.Prelude.{List, reverse};
    ghost use Rattle.csn_fields.specs.declared.outline.Mark.{Mark as MarkV};

    ghost Value = { List MarkV };

    ghost view = { λ o. reverse o.marks.items };
}

impl Outline {
    ghost use Rattle.std.specs.Prelude.{◌≡◌, [], ◌∷◌, length, IsTrue, OnOk, IfOk};
    ghost use Rattle.csn_fields.specs.Events.{Told};
    ghost use Rattle.csn_fields.specs.Outlines.{Precedes, filled};

    /// No events.
    pub fn new(alloc: Global) -> Outline
        ensures { result ≡ [] }
    {
        Outline {
            marks: Vec::new(alloc),
        }
    }

    /// How many there are.
    #[inline(always)]
    pub fn len(&self) -> usize
        ensures { result ≡ length self.now }
    {
        self.marks.len()
    }

    /// Tells the events of a node that is this of the node round it, ends at a place, and has the bits in which a number
    /// ends.
    #[inline(always)]
    pub fn tell<E: Events>(&self, role: Role, end: u32, number: u64, events: &mut E)
        ensures { Told E.tells (filled role self.now end number) events.old events.new }
    {
        let mut role = role;
        let mut at = self.marks.len();
        while at > 0 {
            at -= 1;
            events.event(self.marks[at].event(role, end, number));
            role = Role::Part;
        }
    }

    /// One event more before the others.
    pub fn push(&mut self, mark: Mark) -> Result<(), NoMemory>
        ensures { OnOk result (self.new ≡ mark ∷ self.old) }
    {
        Ok(self.marks.push(mark)?)
    }

    /// The events of a part before the others, where so many bits stand behind the part. Answers whether they could be
    /// put there.
    pub fn push_part(&mut self, part: &Outline, behind: u32) -> Result<bool, NoMemory>
        requires { behind ≤ 56 }
        ensures { IfOk result (λ done. IsTrue done → Precedes part.now behind self.old self.new) }
    {
        for mark in &part.marks {
            let place = mark.behind + behind;
            if place > MOST_BEHIND {
                return Ok(false);
            }
            let moved = Mark::new(mark.node, mark.form, mark.width, place);
            self.marks.push(moved)?;
        }
        Ok(true)
    }
}
