//! The nodes of a description, gone through with a tree.

ghost use Rattle.std.specs.Prelude.{◌≡◌, ℕ, ◌*◌, ◌≤◌, length, true, false, slice_get, Some, OnOk, IfOk, IfErr};
ghost use Rattle.csn_desc.specs.declared.node.Count.{Count as CountV};
ghost use Rattle.csn_desc.specs.declared.node.Node.TheVariants as node;
ghost use Rattle.csn_desc.specs.declared.desc.TheConstants.{MOST_NODES};
ghost use Rattle.csn_desc.specs.TreeV.{trees_of};
ghost use Rattle.csn_desc.specs.Values.{Values, count_of};
ghost use Rattle.csn_desc.specs.Means.{TimesMean};
ghost use Rattle.csn_encode.specs.Misfits.{MissesParts, MissesRepeats};
ghost use Rattle.csn_encode.specs.Writing.{Stands, StandsAtPart, StandsAtParts, Added, Missed, IfMisfit, Adds};
ghost use Rattle.csn_encode.specs.Writing.{StopsAt, AddsNode, StopsAtNode, MissesBelow, AddsParts};

use crate::draft::Draft;
use crate::fault::Stop;
use crate::leaf::WRONG_KIND;
use crate::misfit::MisfitWhy;
use csn_certify::{Plan, Steps};
use csn_desc::{Label, Node, Parts, Rows, Shape, Tree};
use std::sync::ledger::Ledger;

impl Draft {
    /// Writes the tree of node `i`, which is inside so many others.
    #[cycle(write)]
    pub fn write<L: Ledger>(
        &mut self,
        plan: &Plan,
        i: u16,
        round: u8,
        tree: &Tree,
        steps: &mut Steps<L>,
    ) -> Result<(), Stop>
        requires { (v : Values) × Stands plan.now i round v self.old }
        ensures added { OnOk result ((v : Values) → Stands plan.now i round v self.old → Adds plan.now i v tree.now self.old self.new) }
        ensures missed { IfErr result
            (λ stop. IfMisfit stop (λ why. (v : Values) → Stands plan.now i round v self.old
            → StopsAt plan.now i v tree.now self.old self.new why)) }
    {
        match plan.node(i, steps) {
            Node::Lits(run) => self.literal(run, tree),
            Node::Spare(symbol) => self.spare(*symbol, plan.reading(), tree),
            Node::Pad => self.padding(plan.reading(), tree),
            Node::Null => self.null(tree),
            Node::Field { unit, count } => {
                let wanted = u32::from(*unit) * self.count_of(count);
                self.field(wanted, tree)
            }
            Node::Rest => self.rest(tree),
            Node::Seq(parts) => self.sequence(plan, parts, round, tree, steps),
            Node::Choice(parts) => self.choice(plan, parts, round, tree, steps),
            Node::Times { count, part } => {
                let wanted = self.count_of(count);
                self.times(plan, wanted, *part, round, tree, steps)
            }
            Node::Many(part) => self.many(plan, *part, round, tree, steps),
            Node::Trunc(parts) => self.truncation(plan, parts, round, tree, steps),
            Node::Window { unit, count, part } => {
                let wanted = u32::from(*unit) * self.count_of(count);
                self.window(plan, wanted, *part, round, tree, steps)
            }
            Node::Named { label, part } => self.named(plan, label, *part, round, tree, steps),
        }
    }

    /// Writes the tree of a part, which has the number `at` in the tree of the node that it is a part of.
    #[cycle(write)]
    fn below<L: Ledger>(
        &mut self,
        plan: &Plan,
        part: u16,
        at: u32,
        round: u8,
        tree: &Tree,
        steps: &mut Steps<L>,
    ) -> Result<(), Stop>
        requires { (v : Values) × StandsAtPart plan.now part round v self.old }
        ensures added { OnOk result ((v : Values) → StandsAtPart plan.now part round v self.old → Adds plan.now part v tree.now self.old self.new) }
        ensures missed { IfErr result
            (λ stop. IfMisfit stop (λ why. (v : Values) → StandsAtPart plan.now part round v self.old
            → MissesBelow plan.now at part v tree.now self.old self.new why)) }
    {
        self.path.push(at)?;
        self.write(plan, part, round + 1, tree, steps)?;
        self.path.pop();
        Ok(())
    }

    /// Writes the tree of a sequence.
    #[cycle(write)]
    fn sequence<L: Ledger>(
        &mut self,
        plan: &Plan,
        parts: &Parts,
        round: u8,
        tree: &Tree,
        steps: &mut Steps<L>,
    ) -> Result<(), Stop>
        requires { (v : Values) × StandsAtParts plan.now true parts.now round v self.old }
        ensures added { OnOk result ((v : Values) → StandsAtParts plan.now true parts.now round v self.old
            → AddsNode plan.now (node.Seq parts.now) v tree.now self.old self.new) }
        ensures missed { IfErr result
            (λ stop. IfMisfit stop (λ why. (v : Values) → StandsAtParts plan.now true parts.now round v self.old
            → StopsAtNode plan.now (node.Seq parts.now) v tree.now self.old self.new why)) }
    {
        let Shape::Row(rows) = &tree.shape else {
            return Err(WRONG_KIND);
        };
        let wanted = u32::from(parts.len());
        let found = rows.len();
        if found != wanted {
            return Err(Stop::Misfit(MisfitWhy::WrongCount { wanted, found }));
        }
        self.parts(plan, parts, round, rows, steps)?;
        Ok(())
    }

    /// Writes the tree of a choice.
    #[cycle(write)]
    fn choice<L: Ledger>(
        &mut self,
        plan: &Plan,
        parts: &Parts,
        round: u8,
        tree: &Tree,
        steps: &mut Steps<L>,
    ) -> Result<(), Stop>
        requires { (v : Values) × StandsAtParts plan.now false parts.now round v self.old }
        ensures added { OnOk result ((v : Values) → StandsAtParts plan.now false parts.now round v self.old
            → AddsNode plan.now (node.Choice parts.now) v tree.now self.old self.new) }
        ensures missed { IfErr result
            (λ stop. IfMisfit stop (λ why. (v : Values) → StandsAtParts plan.now false parts.now round v self.old
            → StopsAtNode plan.now (node.Choice parts.now) v tree.now self.old self.new why)) }
    {
        let Shape::Alt(number, tree) = &tree.shape else {
            return Err(WRONG_KIND);
        };
        if *number >= parts.len() {
            return Err(Stop::Misfit(MisfitWhy::NoSuchAlternative));
        }
        self.below(plan, parts.get(*number), 0, round, tree, steps)
    }

    /// Writes the tree of a repetition by number.
    #[cycle(write)]
    fn times<L: Ledger>(
        &mut self,
        plan: &Plan,
        wanted: u32,
        part: u16,
        round: u8,
        tree: &Tree,
        steps: &mut Steps<L>,
    ) -> Result<(), Stop>
        requires { (v : Values) × StandsAtPart plan.now part round v self.old }
        ensures added { OnOk result ((v : Values) (count : CountV) → StandsAtPart plan.now part round v self.old
            → count_of v count ≡ Some wanted → AddsNode plan.now (node.Times count part) v tree.now self.old self.new) }
        ensures missed { IfErr result (λ stop. IfMisfit stop (λ why. (v : Values) (count : CountV)
            → StandsAtPart plan.now part round v self.old → count_of v count ≡ Some wanted
            → StopsAtNode plan.now (node.Times count part) v tree.now self.old self.new why)) }
    {
        let Shape::Row(rows) = &tree.shape else {
            return Err(WRONG_KIND);
        };
        let found = rows.len();
        if found != wanted {
            return Err(Stop::Misfit(MisfitWhy::WrongCount { wanted, found }));
        }
        self.turns(plan, part, round, rows, steps)
    }

    /// Writes the tree of a free repetition.
    #[cycle(write)]
    fn many<L: Ledger>(
        &mut self,
        plan: &Plan,
        part: u16,
        round: u8,
        tree: &Tree,
        steps: &mut Steps<L>,
    ) -> Result<(), Stop>
        requires { (v : Values) × StandsAtPart plan.now part round v self.old }
        ensures added { OnOk result ((v : Values) (i : ℕ) → slice_get plan.now.nodes i ≡ Some (node.Many part)
            → StandsAtPart plan.now part round v self.old → AddsNode plan.now (node.Many part)
            v tree.now self.old self.new) }
        ensures missed { IfErr result
            (λ stop. IfMisfit stop (λ why. (v : Values) (i : ℕ) → slice_get plan.now.nodes i ≡ Some (node.Many part)
            → StandsAtPart plan.now part round v self.old → StopsAtNode plan.now (node.Many part)
            v tree.now self.old self.new why)) }
    {
        csn_certify::laws::turns_have_bits();
        let Shape::Row(rows) = &tree.shape else {
            return Err(WRONG_KIND);
        };
        self.turns(plan, part, round, rows, steps)
    }

    /// Writes the trees of the turns of a repetition.
    #[cycle(write)]
    fn turns<L: Ledger>(
        &mut self,
        plan: &Plan,
        part: u16,
        round: u8,
        rows: &Rows,
        steps: &mut Steps<L>,
    ) -> Result<(), Stop>
        requires { (v : Values) × StandsAtPart plan.now part round v self.old }
        ensures added { OnOk result ((v : Values) → StandsAtPart plan.now part round v self.old → Added
            (λ b. TimesMean plan.now (length rows.now) part (length self.old.bits) v b (trees_of rows.now))
            self.old self.new) }
        ensures missed { IfErr result
            (λ stop. IfMisfit stop (λ why. (v : Values) → StandsAtPart plan.now part round v self.old → Missed
            (λ path reason. MissesRepeats plan.now part 0 (length self.old.bits) v (trees_of rows.now) path reason)
            self.old self.new why)) }
    {
        for at in 0..rows.len() {
            self.below(plan, part, at, round, rows.get(at), steps)?;
        }
        Ok(())
    }

    /// Writes the tree of a truncation, whose last component has a bit.
    #[cycle(write)]
    fn truncation<L: Ledger>(
        &mut self,
        plan: &Plan,
        parts: &Parts,
        round: u8,
        tree: &Tree,
        steps: &mut Steps<L>,
    ) -> Result<(), Stop>
        requires { (v : Values) × StandsAtParts plan.now true parts.now round v self.old }
        ensures added { OnOk result ((v : Values) → StandsAtParts plan.now true parts.now round v self.old
            → AddsNode plan.now (node.Trunc parts.now) v tree.now self.old self.new) }
        ensures missed { IfErr result
            (λ stop. IfMisfit stop (λ why. (v : Values) → StandsAtParts plan.now true parts.now round v self.old
            → StopsAtNode plan.now (node.Trunc parts.now) v tree.now self.old self.new why)) }
    {
        let Shape::Row(rows) = &tree.shape else {
            return Err(WRONG_KIND);
        };
        let most = u32::from(parts.len());
        let found = rows.len();
        if found > most {
            return Err(Stop::Misfit(MisfitWhy::WrongCount {
                wanted: most,
                found,
            }));
        }
        let wanted = self.parts(plan, parts, round, rows, steps)?;
        if wanted < found {
            return Err(Stop::Misfit(MisfitWhy::WrongCount { wanted, found }));
        }
        Ok(())
    }

    /// Writes the trees of the first few parts, one each, of which each sees the labelled ones before it.
    /// It answers how many they are without those at the end that have no bits.
    #[cycle(write)]
    fn parts<L: Ledger>(
        &mut self,
        plan: &Plan,
        parts: &Parts,
        round: u8,
        rows: &Rows,
        steps: &mut Steps<L>,
    ) -> Result<u32, Stop>
        requires few { length rows.now ≤ length parts.now }
        requires nodes { length parts.now ≤ MOST_NODES }
        requires stands { (v : Values) × StandsAtParts plan.now true parts.now round v self.old }
        ensures added { IfOk result (λ kept. (v : Values) → StandsAtParts plan.now true parts.now round v self.old
            → AddsParts plan.now parts.now v (trees_of rows.now) self.old self.new kept) }
        ensures missed { IfErr result
            (λ stop. IfMisfit stop (λ why. (v : Values) → StandsAtParts plan.now true parts.now round v self.old
            → Missed (λ path reason. MissesParts plan.now parts.now 0 (length self.old.bits) v (trees_of rows.now)
            path reason) self.old self.new why)) }
    {
        let seen = self.numbers.len();
        let mut kept = 0;
        for at in 0..rows.len() {
            let part = parts.get(at as u16);
            let from = self.bits.len();
            self.below(plan, part, at, round, rows.get(at), steps)?;
            self.keep(plan, part, from);
            if self.bits.len() > from {
                kept = at + 1;
            }
        }
        self.numbers.truncate(seen);
        Ok(kept)
    }

    /// Writes the tree of what is inside a window that has so many bits.
    #[cycle(write)]
    fn window<L: Ledger>(
        &mut self,
        plan: &Plan,
        wanted: u32,
        part: u16,
        round: u8,
        tree: &Tree,
        steps: &mut Steps<L>,
    ) -> Result<(), Stop>
        requires { (v : Values) × StandsAtPart plan.now part round v self.old }
        ensures added { OnOk result ((v : Values) (unit n : ℕ) (count : CountV)
            → StandsAtPart plan.now part round v self.old → count_of v count ≡ Some n → wanted ≡ unit * n
            → AddsNode plan.now (node.Window unit count part) v tree.now self.old self.new) }
        ensures missed { IfErr result (λ stop. IfMisfit stop (λ why. (v : Values) (unit n : ℕ) (count : CountV)
            → StandsAtPart plan.now part round v self.old → count_of v count ≡ Some n → wanted ≡ unit * n
            → StopsAtNode plan.now (node.Window unit count part) v tree.now self.old self.new why)) }
    {
        let from = self.bits.len();
        self.write(plan, part, round + 1, tree, steps)?;
        let found = self.bits.len() - from;
        if found != wanted {
            return Err(Stop::Misfit(MisfitWhy::WindowLength { wanted, found }));
        }
        Ok(())
    }

    /// Writes the tree of a labelled part.
    #[cycle(write)]
    fn named<L: Ledger>(
        &mut self,
        plan: &Plan,
        label: &Label,
        part: u16,
        round: u8,
        tree: &Tree,
        steps: &mut Steps<L>,
    ) -> Result<(), Stop>
        requires { (v : Values) × StandsAtPart plan.now part round v self.old }
        ensures added { OnOk result ((v : Values) → StandsAtPart plan.now part round v self.old → AddsNode plan.now
            (node.Named label.now part) v tree.now self.old self.new) }
        ensures missed { IfErr result
            (λ stop. IfMisfit stop (λ why. (v : Values) → StandsAtPart plan.now part round v self.old
            → StopsAtNode plan.now (node.Named label.now part) v tree.now self.old self.new why)) }
    {
        let Shape::Named(other, tree) = &tree.shape else {
            return Err(WRONG_KIND);
        };
        if other.bytes() != label.bytes() {
            return Err(Stop::Misfit(MisfitWhy::WrongLabel));
        }
        self.below(plan, part, 0, round, tree, steps)
    }
}
