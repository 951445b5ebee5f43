//! The nodes that have no parts.

ghost use Rattle.std.specs.Prelude.{◌≡◌, ℕ, ◌*◌, ◌≤◌, Some, length, OnOk, IfErr};
ghost use Rattle.csn_bits.specs.Octets.{most_bits};
ghost use Rattle.csn_desc.specs.declared.node.Count.{Count as CountV};
ghost use Rattle.csn_desc.specs.declared.node.Node.TheVariants as node;
ghost use Rattle.csn_desc.specs.Nodes.{DescV};
ghost use Rattle.csn_desc.specs.Values.{Values, count_of};
ghost use Rattle.csn_desc.specs.Spelled.{IsSpare};
ghost use Rattle.csn_encode.specs.Writing.{Added, IfMisfit, AddsNode, StopsAtNode, MissesSpare};

use crate::draft::Draft;
use crate::fault::Stop;
use crate::misfit::MisfitWhy;
use crate::symbols::are_sent;
use csn_bits::Bits;
use csn_desc::{Reading, Run, Shape, Symbol, Tree};

/// A tree of the wrong kind.
pub(crate) const WRONG_KIND: Stop = Stop::Misfit(MisfitWhy::WrongKind);

impl Draft {
    /// Writes the tree of a literal.
    pub fn literal(&mut self, run: &Run, tree: &Tree) -> Result<(), Stop>
        ensures added { OnOk result ((d : DescV) (v : Values) → AddsNode d (node.Lits run.now) v tree.now self.old self.new) }
        ensures missed { IfErr result (λ stop. IfMisfit stop (λ why. (d : DescV) (v : Values)
            → StopsAtNode d (node.Lits run.now) v tree.now self.old self.new why)) }
    {
        let Shape::Empty = &tree.shape else {
            return Err(WRONG_KIND);
        };
        self.spell(run)
    }

    /// Writes the tree of a spare bit.
    pub fn spare(&mut self, symbol: Symbol, reading: Reading, tree: &Tree) -> Result<(), Stop>
        ensures added { OnOk result ((d : DescV) (v : Values) → d.reading ≡ reading → AddsNode d (node.Spare symbol) v tree.now self.old self.new) }
        ensures missed { IfErr result (λ stop. IfMisfit stop (λ why. (d : DescV) (v : Values)
            → d.reading ≡ reading → StopsAtNode d (node.Spare symbol) v tree.now self.old self.new why)) }
    {
        let Shape::Bits(bits) = &tree.shape else {
            return Err(WRONG_KIND);
        };
        let found = bits.len();
        if found != 1 {
            return Err(Stop::Misfit(MisfitWhy::WrongWidth { wanted: 1, found }));
        }
        self.add_spare(symbol, reading, bits)
    }

    /// Writes the tree of spare padding.
    pub fn padding(&mut self, reading: Reading, tree: &Tree) -> Result<(), Stop>
        ensures added { OnOk result ((d : DescV) (v : Values) → d.reading ≡ reading → AddsNode d node.Pad v tree.now self.old self.new) }
        ensures missed { IfErr result (λ stop. IfMisfit stop (λ why. (d : DescV) (v : Values)
            → d.reading ≡ reading → StopsAtNode d node.Pad v tree.now self.old self.new why)) }
    {
        let Shape::Bits(bits) = &tree.shape else {
            return Err(WRONG_KIND);
        };
        let found = bits.len();
        if found == 0 {
            return Err(Stop::Misfit(MisfitWhy::WrongWidth { wanted: 1, found }));
        }
        self.add_spare(Symbol::Low, reading, bits)
    }

    /// Adds the bits of a spare part: a sender writes each as the symbol.
    fn add_spare(&mut self, symbol: Symbol, reading: Reading, bits: &Bits) -> Result<(), Stop>
        requires { length bits.now ≤ most_bits }
        ensures added { OnOk result (Added (λ b. (b ≡ bits.now) × IsSpare reading symbol (length self.old.bits) b) self.old self.new) }
        ensures missed { IfErr result (λ stop. IfMisfit stop (λ why. MissesSpare reading symbol (length self.old.bits) bits.now why)) }
        ensures path { self.new.path ≡ self.old.path }
    {
        match reading {
            Reading::Received => self.add(bits),
            Reading::Sent if are_sent(symbol, bits, self.bits.len()) => self.add(bits),
            Reading::Sent => Err(Stop::Misfit(MisfitWhy::WrongSpare)),
        }
    }

    /// Writes the tree of a field that has so many bits.
    pub fn field(&mut self, wanted: u32, tree: &Tree) -> Result<(), Stop>
        ensures added { OnOk result ((d : DescV) (v : Values) (unit : ℕ) (count : CountV) (n : ℕ)
            → count_of v count ≡ Some n → wanted ≡ unit * n → AddsNode d (node.Field unit count)
            v tree.now self.old self.new) }
        ensures missed { IfErr result
            (λ stop. IfMisfit stop (λ why. (d : DescV) (v : Values) (unit : ℕ) (count : CountV) (n : ℕ)
            → count_of v count ≡ Some n → wanted ≡ unit * n → StopsAtNode d (node.Field unit count)
            v tree.now self.old self.new why)) }
    {
        let Shape::Bits(bits) = &tree.shape else {
            return Err(WRONG_KIND);
        };
        let found = bits.len();
        if found != wanted {
            return Err(Stop::Misfit(MisfitWhy::WrongWidth { wanted, found }));
        }
        self.add(bits)
    }

    /// Writes the tree of a rest of any bits.
    pub fn rest(&mut self, tree: &Tree) -> Result<(), Stop>
        ensures added { OnOk result ((d : DescV) (v : Values) → AddsNode d node.Rest v tree.now self.old self.new) }
        ensures missed { IfErr result (λ stop. IfMisfit stop (λ why. (d : DescV) (v : Values) → StopsAtNode d node.Rest v tree.now self.old self.new why)) }
    {
        let Shape::Bits(bits) = &tree.shape else {
            return Err(WRONG_KIND);
        };
        self.add(bits)
    }

    /// Writes the tree of a node that takes no bits.
    pub fn null(&mut self, tree: &Tree) -> Result<(), Stop>
        requires { length self.old.bits ≤ most_bits }
        ensures added { OnOk result ((d : DescV) (v : Values) → AddsNode d node.Null v tree.now self.old self.new) }
        ensures missed { IfErr result (λ stop. IfMisfit stop (λ why. (d : DescV) (v : Values) → StopsAtNode d node.Null v tree.now self.old self.new why)) }
    {
        let Shape::Empty = &tree.shape else {
            return Err(WRONG_KIND);
        };
        Ok(())
    }
}
