//! Nodes without parts, which take bits.

ghost use Rattle.std.specs.Prelude.{◌≡◌, ◌-◌, ◌^◌, ◌<◌, ◌≤◌, take, IfSome, IfNone};
ghost use Rattle.csn_bits.specs.Octets.{IsBits};
ghost use Rattle.csn_desc.specs.Nodes.{DescV};
ghost use Rattle.csn_desc.specs.Spelled.{IsSpare};
ghost use Rattle.csn_bits.specs.Numbers.{number_of};
ghost use Rattle.csn_desc.specs.declared.reading.Reading.TheVariants.{Sent};
ghost use Rattle.csn_judge.specs.declared.leaf.Leaf.TheVariants as leaf;
ghost use Rattle.csn_judge.specs.Coming.{IsTaken};
ghost use Rattle.csn_judge.specs.Told.{BitsTold};
ghost use Rattle.csn_judge.specs.Reads.{MayBeLeft, SpareDiffers, ReadsLeaf};

use crate::source::{MOST_RUN, Source};
use crate::spelling::{repeated, spelled};
use crate::track::Track;
use csn_desc::{Move, Node, Reading, Symbol};

/// What is still to come of a node without parts.
#[derive(Clone, Copy)]
pub(crate) enum Leaf {
    /// The symbols of a literal from the place `at` on.
    Lits { at: u32 },
    /// A spare bit.
    Spare,
    /// Padding to the end: a bit at least where it has not begun.
    Pad { begun: bool },
    /// So many bits.
    Field { left: u32 },
    /// Any bits to the end.
    Rest,
}

/// What comes of reading a leaf.
#[derive(Clone, Copy)]
pub(crate) enum Read {
    /// It has ended.
    All,
    /// This is still to come.
    Some(Leaf),
    /// The bits before this place can be followed, and no further one.
    Refused { place: u32 },
}

impl Leaf {
    /// Takes bits that are ready, where there are some: of a long leaf not all.
    #[inline(always)]
    pub fn read<T: Track>(
        self,
        node: &Node,
        reading: Reading,
        source: &mut Source<'_>,
        track: &mut T,
    ) -> Read
        requires may { MayBeLeft self node.now }
        ensures { (d : DescV) → d.reading ≡ reading → ReadsLeaf d T.takes self node.now source.old source.new track.old track.new result }
    {
        match self {
            Leaf::Lits { at } => read_literal(at, node, source, track),
            Leaf::Spare => read_spare(node, reading, source, track),
            Leaf::Pad { begun } => read_padding(begun, node, reading, source, track),
            Leaf::Field { left } => read_field(left, node, source, track),
            Leaf::Rest => read_rest(node, source, track),
        }
    }
}

/// Takes so many bits, which are ready.
#[inline(always)]
pub(crate) fn take<T: Track>(count: u32, node: &Node, source: &mut Source<'_>, track: &mut T) -> u64
    requires few { count ≤ MOST_RUN }
    requires held { count ≤ source.old.held }
    requires inside { count ≤ source.old.limit - source.old.place }
    ensures taken { IsTaken count source.old source.new }
    ensures bits { IsBits (take count source.old.bits) }
    ensures value { result ≡ number_of (take count source.old.bits) }
    ensures small { result < 2 ^ count }
    ensures told { BitsTold T.takes node.now (take count source.old.bits) track.old track.new }
{
    let number = source.take(count);
    track.bits(number, count, node);
    number
}

/// A literal, from the symbol `at` on.
#[inline(always)]
fn read_literal<T: Track>(at: u32, node: &Node, source: &mut Source<'_>, track: &mut T) -> Read
    requires may { MayBeLeft (leaf.Lits at) node.now }
    ensures { (d : DescV) → ReadsLeaf d T.takes (leaf.Lits at) node.now source.old source.new track.old track.new result }
{
    let Node::Lits(run) = node else {
        unreachable!();
    };
    let ready = source.ready((run.len() - at).min(MOST_RUN));
    if ready == 0 {
        return Read::Some(Leaf::Lits { at });
    }
    let wanted = spelled(run, at, ready, source.place());
    let alike = source.alike(ready, wanted);
    if alike < ready {
        return Read::Refused {
            place: source.place() + alike,
        };
    }
    take(ready, node, source, track);
    if at + ready == run.len() {
        Read::All
    } else {
        Read::Some(Leaf::Lits { at: at + ready })
    }
}

/// A spare bit.
#[inline(always)]
fn read_spare<T: Track>(
    node: &Node,
    reading: Reading,
    source: &mut Source<'_>,
    track: &mut T,
) -> Read
    requires may { MayBeLeft leaf.Spare node.now }
    ensures { (d : DescV) → d.reading ≡ reading → ReadsLeaf d T.takes leaf.Spare node.now source.old source.new track.old track.new result }
{
    let Node::Spare(symbol) = node else {
        unreachable!();
    };
    if source.ready(1) == 0 {
        return Read::Some(Leaf::Spare);
    }
    match take_spare(*symbol, 1, node, reading, source, track) {
        Some(place) => Read::Refused { place },
        None => Read::All,
    }
}

/// Padding.
#[inline(always)]
fn read_padding<T: Track>(
    begun: bool,
    node: &Node,
    reading: Reading,
    source: &mut Source<'_>,
    track: &mut T,
) -> Read
    requires may { MayBeLeft (leaf.Pad begun) node.now }
    ensures { (d : DescV) → d.reading ≡ reading → ReadsLeaf d T.takes (leaf.Pad begun) node.now source.old source.new track.old track.new result }
{
    let ready = source.ready(MOST_RUN);
    if ready == 0 {
        if begun && source.is_closed() {
            return Read::All;
        }
        return Read::Some(Leaf::Pad { begun });
    }
    match take_spare(Symbol::Low, ready, node, reading, source, track) {
        Some(place) => Read::Refused { place },
        None => Read::Some(Leaf::Pad { begun: true }),
    }
}

/// Takes so many bits, which are ready and stand for the symbol where they are sent; or answers the place of
/// the first that does not.
#[inline(always)]
fn take_spare<T: Track>(
    symbol: Symbol,
    count: u32,
    node: &Node,
    reading: Reading,
    source: &mut Source<'_>,
    track: &mut T,
) -> Option<u32>
    requires few { count ≤ MOST_RUN }
    requires held { count ≤ source.old.held }
    requires inside { count ≤ source.old.limit - source.old.place }
    ensures none { IfNone result (IsTaken count source.old source.new × IsSpare reading symbol source.old.place (take count source.old.bits)
        × BitsTold T.takes node.now (take count source.old.bits) track.old track.new) }
    ensures some { IfSome result (λ place. (reading ≡ Sent) × SpareDiffers symbol count source.old place × (track.new ≡ track.old)) }
{
    if let Reading::Sent = reading {
        let wanted = repeated(symbol, count, source.place());
        let alike = source.alike(count, wanted);
        if alike < count {
            return Some(source.place() + alike);
        }
    }
    take(count, node, source, track);
    None
}

/// So many bits.
#[inline(always)]
fn read_field<T: Track>(left: u32, node: &Node, source: &mut Source<'_>, track: &mut T) -> Read
    requires may { MayBeLeft (leaf.Field left) node.now }
    ensures { (d : DescV) → ReadsLeaf d T.takes (leaf.Field left) node.now source.old source.new track.old track.new result }
{
    let ready = source.ready(left.min(MOST_RUN));
    take(ready, node, source, track);
    if ready == left {
        Read::All
    } else {
        Read::Some(Leaf::Field { left: left - ready })
    }
}

/// Any bits.
#[inline(always)]
fn read_rest<T: Track>(node: &Node, source: &mut Source<'_>, track: &mut T) -> Read
    requires may { MayBeLeft leaf.Rest node.now }
    ensures { (d : DescV) → ReadsLeaf d T.takes leaf.Rest node.now source.old source.new track.old track.new result }
{
    let ready = source.ready(MOST_RUN);
    if ready == 0 && source.is_closed() {
        return Read::All;
    }
    take(ready, node, source, track);
    Read::Some(Leaf::Rest)
}
