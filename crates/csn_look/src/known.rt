ghost use Rattle.std.specs.Prelude.{◌≡◌, ℕ, ◌+◌, ◌*◌, ◌%◌, ◌^◌, ◌<◌, ◌≤◌, [], ◌∷◌, slice_get, length, true, false, ◌==◌, IsTrue, ◌↔◌};
ghost use Rattle.csn_desc.specs.Nodes.{DescV, parts_of};
ghost use Rattle.csn_desc.specs.Spelled.{symbol_bit, IsSpare};
ghost use Rattle.csn_look.specs.Told.{OctetsAre};
ghost use Rattle.csn_look.specs.Ends.{MayCount};
ghost use Rattle.csn_look.specs.Counts.{IsFixedAt, IsCounted};
ghost use Rattle.csn_look.specs.Starts.{NodeStarts};
ghost use Rattle.csn_look.specs.NodeSets.{SetsAre, NodeSetsAre, IsKnown, AreKnown};

use crate::node_sets::NodeSets;
use crate::octet_set::OctetSet;
use csn_bits::pattern_bit;
use csn_desc::{Count, Desc, Node, Parts, Reading, Run, Symbol};
use csn_equations::counts::{may_be_none, residues, value_width};

/// A description and the sets of those of its nodes that are known.
#[derive(Clone, Copy)]
pub(crate) struct Known<'a> {
    pub desc: &'a Desc,
    pub sets: &'a [NodeSets],
}

impl Known<'_> {
    /// The sets of a node whose parts are known.
    pub fn node(&self, node: &Node) -> NodeSets
        requires { AreKnown self.now.desc.now self.now.sets.now (parts_of node.now) }
        ensures { NodeSetsAre self.now.desc.now node.now result }
    {
        match node {
            Node::Lits(run) => literal(run),
            Node::Spare(symbol) => self.spare(*symbol),
            Node::Pad => self.padding(),
            Node::Null => NodeSets::no_bits(),
            Node::Field { unit, count } => self.field(*unit, *count),
            Node::Rest => rest(),
            Node::Seq(parts) => self.sequence(parts),
            Node::Choice(parts) => self.choice(parts),
            Node::Times { count, part } => self.times(*count, *part),
            Node::Many(part) => self.many(*part),
            Node::Trunc(parts) => self.truncation(parts),
            Node::Window { unit, count, part } => self.window(*unit, *count, *part),
            Node::Named { label: _, part } => self.of(*part),
        }
    }

    /// The sets of the node with this number.
    fn of(&self, i: u16) -> NodeSets
        requires { IsKnown self.now.desc.now self.now.sets.now i }
        ensures { SetsAre self.now.desc.now i result }
    {
        self.sets[i as usize]
    }

    /// The sets of a spare bit.
    fn spare(&self, symbol: Symbol) -> NodeSets
        ensures { NodeSetsAre self.now.desc.now (Node.Spare symbol) result }
    {
        let reading = self.desc.reading();
        NodeSets {
            lengths: OctetSet::empty().with(1),
            zero: spare_starts(reading, symbol, 0),
            one: spare_starts(reading, symbol, 1),
            ..NodeSets::none()
        }
    }

    /// The sets of padding.
    fn padding(&self) -> NodeSets
        ensures { NodeSetsAre self.now.desc.now Node.Pad result }
    {
        let reading = self.desc.reading();
        NodeSets {
            lengths: OctetSet::all(),
            zero: spare_starts(reading, Symbol::Low, 0),
            one: spare_starts(reading, Symbol::Low, 1),
            ..NodeSets::none()
        }
    }

    /// The sets of a field.
    fn field(&self, unit: u8, count: Count) -> NodeSets
        ensures { NodeSetsAre self.now.desc.now (Node.Field unit count) result }
    {
        NodeSets {
            nullable: may_be_none(count),
            whole_empty: is_no_bits(unit, count),
            cut_empty: is_counted(count),
            lengths: self.counted(unit, count),
            zero: OctetSet::all(),
            one: OctetSet::all(),
        }
    }

    /// The sets of parts one after another.
    fn sequence(&self, parts: &Parts) -> NodeSets
        requires { AreKnown self.now.desc.now self.now.sets.now parts.now }
        ensures { NodeSetsAre self.now.desc.now (Node.Seq parts.now) result }
    {
        let mut sets = NodeSets::no_bits();
        for at in (0..parts.len()).rev() {
            sets = self.of(parts.get(at)).then(&sets);
        }
        sets
    }

    /// The sets of the first few of some parts, also none.
    fn truncation(&self, parts: &Parts) -> NodeSets
        requires { AreKnown self.now.desc.now self.now.sets.now parts.now }
        ensures { NodeSetsAre self.now.desc.now (Node.Trunc parts.now) result }
    {
        let mut sets = NodeSets {
            whole_empty: false,
            cut_empty: true,
            ..NodeSets::no_bits()
        };
        for at in (0..parts.len()).rev() {
            let all = self.of(parts.get(at)).then(&sets);
            sets = NodeSets {
                nullable: true,
                whole_empty: false,
                cut_empty: true,
                lengths: all.lengths.with(0),
                ..all
            };
        }
        sets
    }

    /// The sets of one of some parts.
    fn choice(&self, parts: &Parts) -> NodeSets
        requires { AreKnown self.now.desc.now self.now.sets.now parts.now }
        ensures { NodeSetsAre self.now.desc.now (Node.Choice parts.now) result }
    {
        let mut sets = NodeSets::none();
        for at in 0..parts.len() {
            sets = sets.or(&self.of(parts.get(at)));
        }
        sets
    }

    /// The sets of a part as many times as counted.
    fn times(&self, count: Count, part: u16) -> NodeSets
        requires { IsKnown self.now.desc.now self.now.sets.now part }
        ensures { NodeSetsAre self.now.desc.now (Node.Times count part) result }
    {
        let once = self.of(part);
        match count {
            Count::Fixed(n) => NodeSets {
                whole_empty: once.whole_empty | (n == 0),
                cut_empty: once.cut_empty & (n != 0),
                lengths: once.lengths.times(n),
                ..once
            },
            Count::Counted { m: _, field: _, c } => NodeSets {
                nullable: once.nullable | (c == 0),
                whole_empty: false,
                cut_empty: true,
                lengths: once.lengths.repeated(),
                ..once
            },
        }
    }

    /// The sets of a part any number of times.
    fn many(&self, part: u16) -> NodeSets
        requires { IsKnown self.now.desc.now self.now.sets.now part }
        ensures { NodeSetsAre self.now.desc.now (Node.Many part) result }
    {
        let once = self.of(part);
        NodeSets {
            nullable: true,
            whole_empty: false,
            cut_empty: true,
            lengths: once.lengths.repeated(),
            ..once
        }
    }

    /// The sets of a part with as many bits as counted.
    fn window(&self, unit: u8, count: Count, part: u16) -> NodeSets
        requires { IsKnown self.now.desc.now self.now.sets.now part }
        ensures { NodeSetsAre self.now.desc.now (Node.Window unit count part) result }
    {
        let inside = self.of(part);
        NodeSets {
            nullable: inside.nullable & may_be_none(count),
            whole_empty: false,
            cut_empty: true,
            lengths: self.counted(unit, count),
            ..inside
        }
    }

    /// How many bits, modulo 8, units of bits may be that are counted.
    fn counted(&self, unit: u8, count: Count) -> OctetSet
        ensures { OctetsAre result (λ r. (n : ℕ) × MayCount self.now.desc.now count n × (r ≡ unit * n % 8)) }
    {
        match count {
            Count::Fixed(n) => OctetSet::empty().with((unit as u64 * n as u64 % 8) as u8),
            Count::Counted { m, field, c } => match value_width(self.desc, field) {
                Some(width) => valued(unit, m, c, residues(width)),
                None => OctetSet::empty(),
            },
        }
    }
}

/// The sets of a literal word.
fn literal(run: &Run) -> NodeSets
    ensures { (d : DescV) → NodeSetsAre d (Node.Lits run.now) result }
{
    let len = run.len();
    NodeSets {
        whole_empty: len == 0,
        lengths: OctetSet::empty().with((len % 8) as u8),
        zero: literal_starts(run, 0),
        one: literal_starts(run, 1),
        ..NodeSets::none()
    }
}

/// The sets of a rest, which may be any bits.
fn rest() -> NodeSets
    ensures { (d : DescV) → NodeSetsAre d Node.Rest result }
{
    NodeSets {
        nullable: true,
        whole_empty: false,
        cut_empty: true,
        lengths: OctetSet::all(),
        zero: OctetSet::all(),
        one: OctetSet::all(),
    }
}

/// The octet positions at which a literal word begins with the bit.
fn literal_starts(run: &Run, bit: u8) -> OctetSet
    ensures { (d : DescV) → OctetsAre result (λ o. NodeStarts d (Node.Lits run.now) o bit) }
{
    if run.len() == 0 {
        OctetSet::empty()
    } else {
        symbol_starts(*run.get(0), bit)
    }
}

/// The octet positions at which a spare bit may be this one.
fn spare_starts(reading: Reading, symbol: Symbol, bit: u8) -> OctetSet
    requires { bit ≤ 1 }
    ensures { OctetsAre result (λ o. IsSpare reading symbol o (bit ∷ [])) }
{
    match reading {
        Reading::Received => OctetSet::all(),
        Reading::Sent => symbol_starts(symbol, bit),
    }
}

/// The octet positions at which a symbol stands for the bit.
fn symbol_starts(symbol: Symbol, bit: u8) -> OctetSet
    ensures { OctetsAre result (λ o. symbol_bit symbol o ≡ bit) }
{
    let mut starts = OctetSet::empty();
    for octet in 0..8 {
        if bit_of_symbol(symbol, octet) == bit {
            starts = starts.with(octet);
        }
    }
    starts
}

/// The bit that a symbol stands for at an octet position.
pub(crate) fn bit_of_symbol(symbol: Symbol, octet: u8) -> u8
    requires { octet ≤ 7 }
    ensures { result ≡ symbol_bit symbol octet }
{
    match symbol {
        Symbol::Zero => 0,
        Symbol::One => 1,
        Symbol::Low => pattern_bit(octet),
        Symbol::High => 1 - pattern_bit(octet),
    }
}

/// Whether a field has a constant number of bits, which is 0.
fn is_no_bits(unit: u8, count: Count) -> bool
    ensures { IsTrue result ↔ IsFixedAt (λ n. unit * n ≡ 0) count }
{
    match count {
        Count::Fixed(n) => unit == 0 || n == 0,
        Count::Counted {
            m: _,
            field: _,
            c: _,
        } => false,
    }
}

/// Whether a count stands on a field.
fn is_counted(count: Count) -> bool
    ensures { IsTrue result ↔ IsCounted count }
{
    match count {
        Count::Fixed(_) => false,
        Count::Counted {
            m: _,
            field: _,
            c: _,
        } => true,
    }
}

/// How many bits, modulo 8, units of bits may be that are counted by the first few values of a field.
fn valued(unit: u8, m: u8, c: u32, values: u8) -> OctetSet
    requires { values ≤ 8 }
    ensures { OctetsAre result (λ r. (value : ℕ) × (value < values) × (r ≡ unit * (m * value + c) % 8)) }
{
    let mut lengths = OctetSet::empty();
    for value in 0..values {
        let n = m as u64 * value as u64 + c as u64;
        lengths = lengths.with((unit as u64 * n % 8) as u8);
    }
    lengths
}
