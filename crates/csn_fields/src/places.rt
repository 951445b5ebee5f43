ghost use Rattle.std.specs.Prelude.{◌≡◌, reverse};
ghost use Rattle.csn_fields.specs.Places.{opened_with};

use crate::alternatives::Alternatives;
use crate::event::Event;
use crate::leaf::{Leaf, LeafKind, Role, kind_of};
use crate::refusal::OpenNode;
use arrayvec::ArrayVec;
use csn_desc::{MOST_DEPTH, Move, Node};
use std::marker::Model;
use std::mem;

/// The most bits whose number is told.
const MOST_NUMBER: u32 = 64;

/// What is kept of a block between two of its moves, to tell its events.
#[derive(Drop)]
pub struct Places<'a> {
    alternatives: &'a Alternatives,
    /// The nodes that have begun and not ended, each inside the one before it.
    nodes: ArrayVec<Begun, MOST_DEPTH>,
    /// How many bits were taken.
    place: u32,
    /// The number that the last 64 bits of the innermost node write.
    number: u64,
}

/// A node that has begun and not ended.
#[derive(Clone, Copy)]
pub(crate) struct Begun {
    pub node: OpenNode,
    pub inside: Inside,
}

/// What the next part of a node is.
#[derive(Clone, Copy)]
pub(crate) enum Inside {
    Part,
    Alternative,
    Turn(u32),
}

impl Default for Begun {
    fn default() -> Begun {
        Begun {
            node: OpenNode {
                node: 0,
                role: Role::Root,
                place: 0,
            },
            inside: Inside::Part,
        }
    }
}

impl<'a> Model for Places<'a> {
    ghost use Rattle.std.specs.Prelude.{reverse};
    ghost use Rattle.csn_fields.specs.Places.{PlacesV};

    ghost Value = { PlacesV };

    ghost view = { λ p. record { numbers = p.alternatives.now.numbers; nodes = reverse p.nodes.items; place = p.place; number = p.number } };
}

impl<'a> Places<'a> {
    ghost use Rattle.std.specs.Prelude.{◌≡◌, ◌+◌, ◌≤◌, ◌<◌, length, IsTrue};
    ghost use Rattle.csn_bits.specs.Numbers.{low_bits};
    ghost use Rattle.csn_fields.specs.Leaves.{kind_of};
    ghost use Rattle.csn_fields.specs.Places.{nothing, innermost, entered, left, behind, event_of, begins_as, ended_in, role_in, advanced, took_bit, took_bits};

    /// Nothing of a block.
    pub fn new(alternatives: &'a Alternatives) -> Places<'a>
        ensures { result ≡ nothing alternatives.now.numbers }
    {
        Places {
            alternatives,
            nodes: ArrayVec::new(),
            place: 0,
            number: 0,
        }
    }

    /// Nothing of a block again.
    pub fn restart(&mut self)
        ensures { self.new ≡ nothing self.old.numbers }
    {
        self.nodes.clear();
        self.place = 0;
        self.number = 0;
    }

    /// The innermost node that has begun and not ended.
    pub fn innermost(&self) -> Option<OpenNode>
        ensures { result ≡ innermost self.now.nodes }
    {
        match self.nodes.last() {
            Some(begun) => Some(begun.node),
            None => None,
        }
    }

    /// One move, and the event that is told by it, if there is one.
    #[inline(always)]
    pub(crate) fn step(&mut self, step: Move, node: &Node) -> Option<Event>
        ensures places { self.new ≡ behind self.old step node.now }
        ensures event { result ≡ event_of self.old step node.now }
    {
        match step {
            Move::Enter(i) => self.enter(i, node),
            Move::Bit(bit) => {
                self.take_bit(bit);
                None
            }
            Move::Leave => self.leave(kind_of(node)),
        }
    }

    /// A node begins.
    #[inline(always)]
    fn enter(&mut self, i: u16, node: &Node) -> Option<Event>
        ensures places { self.new ≡ entered i node.now self.old }
        ensures event { result ≡ begins_as (kind_of node.now) i (role_in self.old.numbers i self.old.nodes) self.old.place }
    {
        let role = self.begin_part(i);
        let place = self.place;
        let begun = Begun {
            node: OpenNode {
                node: i,
                role,
                place,
            },
            inside: Inside::of(node),
        };
        put(&mut self.nodes, begun);
        self.number = 0;
        match kind_of(node) {
            Some(_) => None,
            None => Some(Event::Begin {
                node: i,
                role,
                place,
            }),
        }
    }

    /// What node `i` is of the innermost node, in which it begins.
    #[inline(always)]
    fn begin_part(&mut self, i: u16) -> Role
        ensures role { result ≡ role_in self.old.numbers i self.old.nodes }
        ensures places { self.new ≡ record {
          numbers = self.old.numbers;
          nodes = advanced self.old.nodes;
          place = self.old.place;
          number = self.old.number;
        } }
    {
        let count = self.nodes.len();
        if count == 0 {
            return Role::Root;
        }
        let Begun { node, inside } = self.nodes[count - 1];
        self.nodes[count - 1] = Begun {
            node,
            inside: inside.next(),
        };
        inside.role(self.alternatives, i)
    }

    /// The innermost node ends, which is a leaf if it has a kind.
    #[inline(always)]
    fn leave(&mut self, kind: Option<LeafKind>) -> Option<Event>
        ensures places { self.new ≡ left self.old }
        ensures event { result ≡ ended_in kind self.old.nodes self.old.place self.old.number }
    {
        let number = mem::replace(&mut self.number, 0);
        let begun = self.nodes.pop()?;
        Some(begun.node.end(kind, self.place, number))
    }

    /// The place of the next bit.
    pub(crate) fn place(&self) -> u32
        ensures { result ≡ self.now.place }
    {
        self.place
    }

    /// Whether so many more nodes can be open, and 32 bits hold the place behind so many more bits.
    pub(crate) fn has_room(&self, nodes: usize, bits: u32) -> bool
        ensures nodes { IsTrue result → length self.now.nodes + nodes ≤ 64 }
        ensures bits { IsTrue result → self.now.place + bits < 4294967296 }
    {
        nodes <= MOST_DEPTH - self.nodes.len() && bits <= u32::MAX - self.place
    }

    /// Node `i` begins, takes so many bits, and ends. It answers what the node is of the innermost one.
    pub(crate) fn pass(&mut self, i: u16, bits: u32) -> Role
        requires { self.old.place + bits < 4294967296 }
        ensures role { result ≡ role_in self.old.numbers i self.old.nodes }
        ensures places { self.new ≡ record {
          numbers = self.old.numbers;
          nodes = advanced self.old.nodes;
          place = self.old.place + bits;
          number = 0;
        } }
    {
        let role = self.begin_part(i);
        self.place += bits;
        self.number = 0;
        role
    }

    /// The innermost node takes a bit.
    fn take_bit(&mut self, bit: u8)
        ensures { self.new ≡ took_bit bit self.old }
    {
        self.place = self.place.wrapping_add(1);
        self.number = self.number.wrapping_mul(2).wrapping_add(u64::from(bit));
    }

    /// The innermost node takes the last `count` bits of a number.
    pub(crate) fn take(&mut self, number: u64, count: u32)
        requires { count ≤ 56 }
        ensures { self.new ≡ took_bits (low_bits count number) self.old }
    {
        if count == 0 {
            return;
        }
        self.place = self.place.wrapping_add(count);
        let more = number % (1 << count);
        self.number = (self.number << count).wrapping_add(more);
    }
}

/// One more node is open, where there is room; a description is no deeper than there is.
#[inline(always)]
fn put(nodes: &mut ArrayVec<Begun, MOST_DEPTH>, begun: Begun)
    ensures { reverse nodes.new.items ≡ opened_with begun (reverse nodes.old.items) }
{
    if !nodes.is_full() {
        nodes.push(begun);
    }
}

impl Inside {
    ghost use Rattle.std.specs.Prelude.{◌≡◌};
    ghost use Rattle.csn_fields.specs.Places.{inside_of, role_by, next_inside};

    /// What the first part of a node is.
    fn of(node: &Node) -> Inside
        ensures { result ≡ inside_of node.now }
    {
        match node {
            Node::Choice(_) => Inside::Alternative,
            Node::Times { .. } | Node::Many(_) => Inside::Turn(0),
            _ => Inside::Part,
        }
    }

    /// What node `i` is, which begins as the next part.
    fn role(self, alternatives: &Alternatives, i: u16) -> Role
        ensures { result ≡ role_by alternatives.now.numbers i self }
    {
        match self {
            Inside::Part => Role::Part,
            Inside::Alternative => Role::Alternative(alternatives.number(i)),
            Inside::Turn(turn) => Role::Turn(turn),
        }
    }

    /// What the part behind the next one is.
    fn next(self) -> Inside
        ensures { result ≡ next_inside self }
    {
        match self {
            Inside::Turn(turn) if turn < u32::MAX => Inside::Turn(turn + 1),
            same => same,
        }
    }
}

impl OpenNode {
    ghost use Rattle.std.specs.Prelude.{◌≡◌};
    ghost use Rattle.csn_fields.specs.Places.{ends_as};

    /// It ends at a place, where its last 64 bits write a number. It is a leaf if it has a kind.
    #[inline(always)]
    fn end(self, kind: Option<LeafKind>, place: u32, number: u64) -> Event
        ensures { result ≡ ends_as kind self place number }
    {
        let Some(kind) = kind else {
            return Event::End {
                node: self.node,
                place,
            };
        };
        let bits = place.saturating_sub(self.place);
        Event::Leaf(Leaf {
            node: self.node,
            kind,
            role: self.role,
            place: self.place,
            bits,
            number: if bits <= MOST_NUMBER {
                Some(number)
            } else {
                None
            },
        })
    }
}
