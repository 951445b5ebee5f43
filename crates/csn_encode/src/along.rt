//! Trees that are written along their text, in either form, without the trees themselves. Where that does not succeed, nothing is said of the text.

ghost use Rattle.std.specs.Prelude.{◌≡◌, ◌*◌, ℕ, true, false, length, slice_get, Some, IfSome};
ghost use Rattle.csn_desc.specs.declared.node.Count.{Count as CountV};
ghost use Rattle.csn_desc.specs.declared.node.Node.TheVariants as node;
ghost use Rattle.csn_desc.specs.TreeV.{trees_of};
ghost use Rattle.csn_desc.specs.Means.{TimesMean};
ghost use Rattle.csn_desc.specs.Values.{Values, count_of};
ghost use Rattle.csn_encode.specs.Following.{BeginsWith, BeginsWithRow};
ghost use Rattle.csn_encode.specs.Writing.{Stands, StandsAtPart, StandsAtParts, Added, Adds, AddsNode, AddsParts};

use crate::draft::Draft;
use crate::text::{alternative, behind, behind_closing, behind_label, goes_on, next_tree};
use csn_certify::{Plan, Steps};
use csn_desc::{Label, Node, Parts};
use csn_json::TreeForm;
use std::alloc::Global;
use std::sync::ledger::Ledger;

/// What was written of a row.
#[derive(Clone, Copy)]
struct RowEnd<'a> {
    /// How many trees it has.
    count: u32,
    /// How many they are without those at the end that have no bits.
    kept: u32,
    /// The text behind `]`.
    rest: &'a [u8],
}

/// What is the same for all nodes: where memory comes from, the form of the text, and the description.
#[derive(Clone, Copy)]
pub(crate) struct Ground<'a> {
    pub alloc: Global,
    pub form: TreeForm,
    pub plan: &'a Plan,
}

impl Draft {
    /// Writes the tree of node `i`, which is inside so many others, and tells the text behind it.
    #[cycle(along)]
    pub fn write_text<'a, L: Ledger>(
        &mut self,
        ground: Ground,
        i: u16,
        round: u8,
        text: &'a [u8],
        steps: &mut Steps<L>,
    ) -> Option<&'a [u8]>
        requires { (v : Values) × Stands ground.plan.now i round v self.old }
        ensures { IfSome result
            (λ rest. BeginsWith ground.entry.form text.now (λ t. (v : Values) → Stands ground.entry.plan.now i round v self.old
            → Adds ground.entry.plan.now i v t self.old self.new) rest.now) }
    {
        let plan = ground.plan;
        let form = ground.form;
        match plan.node(i, steps) {
            Node::Lits(run) => self.literal_text(form, run, text),
            Node::Spare(symbol) => {
                self.spare_text(form, ground.alloc, *symbol, plan.reading(), text)
            }
            Node::Pad => self.padding_text(form, ground.alloc, plan.reading(), text),
            Node::Null => self.null_text(form, text),
            Node::Field { unit, count } => {
                let wanted = u32::from(*unit) * self.count_of(count);
                self.field_text(form, ground.alloc, wanted, text)
            }
            Node::Rest => self.rest_text(form, ground.alloc, text),
            Node::Seq(parts) => self.sequence_text(ground, parts, round, text, steps),
            Node::Choice(parts) => self.choice_text(ground, parts, round, text, steps),
            Node::Times { count, part } => {
                let wanted = self.count_of(count);
                self.times_text(ground, wanted, *part, round, text, steps)
            }
            Node::Many(part) => self.many_text(ground, *part, round, text, steps),
            Node::Trunc(parts) => self.truncation_text(ground, parts, round, text, steps),
            Node::Window { unit, count, part } => {
                let wanted = u32::from(*unit) * self.count_of(count);
                self.window_text(ground, wanted, *part, round, text, steps)
            }
            Node::Named { label, part } => {
                self.named_text(ground, label, *part, round, text, steps)
            }
        }
    }

    /// Writes the tree of a sequence.
    #[cycle(along)]
    fn sequence_text<'a, L: Ledger>(
        &mut self,
        ground: Ground,
        parts: &Parts,
        round: u8,
        text: &'a [u8],
        steps: &mut Steps<L>,
    ) -> Option<&'a [u8]>
        requires { (v : Values) × StandsAtParts ground.plan.now true parts.now round v self.old }
        ensures { IfSome result
            (λ rest. BeginsWith ground.entry.form text.now (λ t. (v : Values) → StandsAtParts ground.entry.plan.now true parts.now round
            v self.old → AddsNode ground.entry.plan.now (node.Seq parts.now) v t self.old self.new) rest.now) }
    {
        csn_json::laws::texts_are_joined();
        let row = self.parts_text(ground, parts, round, behind(text, b'[')?, steps)?;
        if row.count != u32::from(parts.len()) {
            return None;
        }
        Some(row.rest)
    }

    /// Writes the tree of a truncation, whose last component has a bit.
    #[cycle(along)]
    fn truncation_text<'a, L: Ledger>(
        &mut self,
        ground: Ground,
        parts: &Parts,
        round: u8,
        text: &'a [u8],
        steps: &mut Steps<L>,
    ) -> Option<&'a [u8]>
        requires { (v : Values) × StandsAtParts ground.plan.now true parts.now round v self.old }
        ensures { IfSome result
            (λ rest. BeginsWith ground.entry.form text.now (λ t. (v : Values) → StandsAtParts ground.entry.plan.now true parts.now round
            v self.old → AddsNode ground.entry.plan.now (node.Trunc parts.now) v t self.old self.new) rest.now) }
    {
        csn_json::laws::texts_are_joined();
        let row = self.parts_text(ground, parts, round, behind(text, b'[')?, steps)?;
        if row.kept < row.count {
            return None;
        }
        Some(row.rest)
    }

    /// Writes the tree of a choice.
    #[cycle(along)]
    fn choice_text<'a, L: Ledger>(
        &mut self,
        ground: Ground,
        parts: &Parts,
        round: u8,
        text: &'a [u8],
        steps: &mut Steps<L>,
    ) -> Option<&'a [u8]>
        requires { (v : Values) × StandsAtParts ground.plan.now false parts.now round v self.old }
        ensures { IfSome result
            (λ rest. BeginsWith ground.entry.form text.now (λ t. (v : Values)
            → StandsAtParts ground.entry.plan.now false parts.now round v self.old → AddsNode ground.entry.plan.now
            (node.Choice parts.now) v t self.old self.new) rest.now) }
    {
        csn_json::laws::texts_are_joined();
        let (number, tail) = alternative(ground.form, text, parts.len())?;
        let rest = self.write_text(ground, parts.get(number), round + 1, tail, steps)?;
        behind_closing(ground.form, rest)
    }

    /// Writes the tree of a repetition by number.
    #[cycle(along)]
    fn times_text<'a, L: Ledger>(
        &mut self,
        ground: Ground,
        wanted: u32,
        part: u16,
        round: u8,
        text: &'a [u8],
        steps: &mut Steps<L>,
    ) -> Option<&'a [u8]>
        requires { (v : Values) × StandsAtPart ground.plan.now part round v self.old }
        ensures { IfSome result (λ rest. BeginsWith ground.entry.form text.now (λ t. (v : Values) (count : CountV)
            → StandsAtPart ground.entry.plan.now part round v self.old → count_of v count ≡ Some wanted
            → AddsNode ground.entry.plan.now (node.Times count part) v t self.old self.new) rest.now) }
    {
        csn_json::laws::texts_are_joined();
        let row = self.turns_text(ground, wanted, part, round, behind(text, b'[')?, steps)?;
        if row.count != wanted {
            return None;
        }
        Some(row.rest)
    }

    /// Writes the tree of a free repetition.
    #[cycle(along)]
    fn many_text<'a, L: Ledger>(
        &mut self,
        ground: Ground,
        part: u16,
        round: u8,
        text: &'a [u8],
        steps: &mut Steps<L>,
    ) -> Option<&'a [u8]>
        requires { (v : Values) × StandsAtPart ground.plan.now part round v self.old }
        ensures { IfSome result (λ rest. BeginsWith ground.entry.form text.now (λ t. (v : Values) (i : ℕ)
            → slice_get ground.entry.plan.now.nodes i ≡ Some (node.Many part)
            → StandsAtPart ground.entry.plan.now part round v self.old → AddsNode ground.entry.plan.now
            (node.Many part) v t self.old self.new) rest.now) }
    {
        csn_certify::laws::turns_have_bits();
        csn_json::laws::texts_are_joined();
        let row = self.turns_text(ground, u32::MAX, part, round, behind(text, b'[')?, steps)?;
        Some(row.rest)
    }

    /// Writes the trees of the turns of a repetition, at most so many, up to the end of their row.
    #[cycle(along)]
    fn turns_text<'a, L: Ledger>(
        &mut self,
        ground: Ground,
        most: u32,
        part: u16,
        round: u8,
        text: &'a [u8],
        steps: &mut Steps<L>,
    ) -> Option<RowEnd<'a>>
        requires { (v : Values) × StandsAtPart ground.plan.now part round v self.old }
        ensures { IfSome result
            (λ row. BeginsWithRow ground.entry.form text.now (λ ts. (v : Values)
            → StandsAtPart ground.entry.plan.now part round v self.old
            → Added (λ b. TimesMean ground.entry.plan.now (length ts) part (length self.old.bits) v b (trees_of ts))
            self.old self.new) row.count row.rest.now) }
    {
        let mut count = 0;
        let mut rest = text;
        while goes_on(rest, count, most) {
            rest = self.write_text(
                ground,
                part,
                round + 1,
                next_tree(ground.form, rest, count)?,
                steps,
            )?;
            count += 1;
        }
        let rest = behind(rest, b']')?;
        Some(RowEnd {
            count,
            kept: count,
            rest,
        })
    }

    /// Writes the trees of the first few parts, one each, of which each sees the labelled ones before it, up to the end of their row.
    #[cycle(along)]
    fn parts_text<'a, L: Ledger>(
        &mut self,
        ground: Ground,
        parts: &Parts,
        round: u8,
        text: &'a [u8],
        steps: &mut Steps<L>,
    ) -> Option<RowEnd<'a>>
        requires { (v : Values) × StandsAtParts ground.plan.now true parts.now round v self.old }
        ensures { IfSome result
            (λ row. BeginsWithRow ground.entry.form text.now (λ ts. (v : Values)
            → StandsAtParts ground.entry.plan.now true parts.now round v self.old
            → AddsParts ground.entry.plan.now parts.now v (trees_of ts) self.old self.new row.kept)
            row.count row.rest.now) }
    {
        let seen = self.numbers.len();
        let mut kept = 0;
        let mut count = 0;
        let mut rest = text;
        while goes_on(rest, count, u32::from(parts.len())) {
            let part = parts.get(count as u16);
            let from = self.bits.len();
            rest = self.write_text(
                ground,
                part,
                round + 1,
                next_tree(ground.form, rest, count)?,
                steps,
            )?;
            self.keep(ground.plan, part, from);
            count += 1;
            if self.bits.len() > from {
                kept = count;
            }
        }
        self.numbers.truncate(seen);
        let rest = behind(rest, b']')?;
        Some(RowEnd { count, kept, rest })
    }

    /// Writes the tree of what is inside a window that has so many bits.
    #[cycle(along)]
    fn window_text<'a, L: Ledger>(
        &mut self,
        ground: Ground,
        wanted: u32,
        part: u16,
        round: u8,
        text: &'a [u8],
        steps: &mut Steps<L>,
    ) -> Option<&'a [u8]>
        requires { (v : Values) × StandsAtPart ground.plan.now part round v self.old }
        ensures { IfSome result (λ rest. BeginsWith ground.entry.form text.now (λ t. (v : Values) (unit n : ℕ) (count : CountV)
            → StandsAtPart ground.entry.plan.now part round v self.old → count_of v count ≡ Some n → wanted ≡ unit * n
            → AddsNode ground.entry.plan.now (node.Window unit count part) v t self.old self.new) rest.now) }
    {
        let from = self.bits.len();
        let rest = self.write_text(ground, part, round + 1, text, steps)?;
        if self.bits.len() - from != wanted {
            return None;
        }
        Some(rest)
    }

    /// Writes the tree of a labelled part.
    #[cycle(along)]
    fn named_text<'a, L: Ledger>(
        &mut self,
        ground: Ground,
        label: &Label,
        part: u16,
        round: u8,
        text: &'a [u8],
        steps: &mut Steps<L>,
    ) -> Option<&'a [u8]>
        requires { (v : Values) × StandsAtPart ground.plan.now part round v self.old }
        ensures { IfSome result
            (λ rest. BeginsWith ground.entry.form text.now (λ t. (v : Values) → StandsAtPart ground.entry.plan.now part round v self.old
            → AddsNode ground.entry.plan.now (node.Named label.now part) v t self.old self.new) rest.now) }
    {
        csn_json::laws::texts_are_joined();
        let tail = behind_label(ground.form, text, label.bytes())?;
        let rest = self.write_text(ground, part, round + 1, tail, steps)?;
        behind_closing(ground.form, rest)
    }
}
