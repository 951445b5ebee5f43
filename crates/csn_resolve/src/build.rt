ghost use Rattle.std.specs.Prelude.{◌≡◌, ◌≤◌, ◌↔◌, IsTrue, ℕ, List, take, length, OnOk};
ghost use Rattle.std.specs.Option.{option_copied};
ghost use Rattle.csn_desc.specs.declared.node.Node.TheVariants as node;
ghost use Rattle.csn_desc.specs.declared.node.Count.TheVariants.{Fixed};
ghost use Rattle.csn_grammar.specs.ExprV.{ExprV, branches_of, expr, name as named, choice, power, both};
ghost use Rattle.csn_grammar.specs.Void.{Kept};
ghost use Rattle.csn_resolve.specs.declared.marks.Test.TheVariants.{Void};
ghost use Rattle.csn_resolve.specs.Views.{tail_view};
ghost use Rattle.csn_resolve.specs.Made.{shown_view, only, QuietAt, AllQuiet, BranchesQuiet, RuleQuiet, IsKept};
ghost use Rattle.csn_resolve.specs.Made.{GivesFew, ItemsGiveFew, KeptGiveFew, RuleGivesFew, TailGivesFew};
ghost use Rattle.csn_resolve.specs.Made.{TurnGivesFew, Adds, AddsItems, AddsKept, AddsRule, AddsTail, AddsTurn};

use crate::form::{unit_of, window_of};
use crate::leaf::spare_node;
use crate::made::Made;
use crate::marks::Marks;
use crate::names::Names;
use crate::shown::{Round, Shown};
use crate::tail::{Tail, tail_of};
use csn_bits::NoMemory;
use csn_desc::{Count, Label, Node, Parts, Reading};
use csn_grammar::{Branch, Branches, Exponent, Expr, Exprs, Form, Rule};
use std::alloc::Global;

/// Nothing but want of memory keeps nodes from being added.
type Built = Result<(), NoMemory>;

/// What the second walk through the rules, which makes the nodes, asks: the rules by their names, and which
/// of them are empty of strings in the reading.
#[derive(Clone, Copy)]
pub(crate) struct Builder<'a> {
    pub alloc: Global,
    pub names: &'a Names<'a>,
    pub reading: Reading,
    pub void: &'a Marks<'a>,
    ghost marks: { void.now ≡ record { rules = names.now; test = Void reading } },
}

impl<'a> Builder<'a> {
    /// Adds the nodes of an expression, whose walk meets no refusal.
    #[cycle(build)]
    pub(crate) fn build(&self, round: Round<'_>, x: &Expr, made: &mut Made) -> Built
        requires quiet { QuietAt self.now.names.now self.now.reading round.names x.now }
        requires gives { GivesFew self.now.names.now self.now.reading x.now (length made.old) (shown_view self.now.reading round.shown.now) }
        ensures { OnOk result (Adds self.now.names.now self.now.reading x.now (shown_view self.now.reading round.entry.shown.now) made.old made.new) }
    {
        let place = x.span.start;
        match &x.form {
            Form::Lits(run) => made.push(Node::Lits(run.copy(self.alloc)?), place),
            Form::Null => made.push(Node::Null, place),
            Form::Bit => made.push(one_field(1), place),
            Form::Octet => made.push(one_field(8), place),
            Form::Name(label) => self.build_name(round, place, label, made),
            Form::Labelled(label, part) => {
                let label = label.copy(self.alloc)?;
                let inner = made.len() + 1;
                made.push(Node::Named { label, part: inner }, place)?;
                self.build(round, part, made)
            }
            Form::Group(part) => self.build(round, part, made),
            Form::Seq(items) => {
                let at = made.len();
                let mut parts = Parts::new(self.alloc);
                made.push(Node::Seq(Parts::new(self.alloc)), place)?;
                self.build_items(round, items, items.len(), &mut parts, made)?;
                made.set(at, Node::Seq(parts));
                Ok(())
            }
            Form::Choice(branches) => self.build_choice(place, round, branches, made),
            Form::Power(part, count) => self.build_power(round, place, part, count, made),
            Form::Cut(items) => {
                let mut parts = Parts::new(self.alloc);
                let at = made.len();
                made.push(Node::Trunc(Parts::new(self.alloc)), place)?;
                self.build_items(round, items, items.len(), &mut parts, made)?;
                made.set(at, Node::Trunc(parts));
                Ok(())
            }
            Form::Both(left, right) => self.build_both(round, left, right, place, made),
            Form::Sends(left, right) => match self.reading {
                Reading::Received => self.build(round, left, made),
                Reading::Sent => self.build(round, right, made),
            },
        }
    }

    /// Adds the nodes of the first `count` items of a sequence or truncation, of which each sees the
    /// labelled ones before it, and the numbers of their first nodes.
    #[cycle(build)]
    fn build_items(
        &self,
        round: Round<'_>,
        items: &Exprs,
        count: u32,
        parts: &mut Parts,
        made: &mut Made,
    ) -> Built
        requires within { count ≤ length items.now }
        requires quiet { AllQuiet self.now.names.now self.now.reading round.names (take count items.now) }
        requires gives { ItemsGiveFew self.now.names.now self.now.reading (take count items.now) (length made.old)
            (shown_view self.now.reading round.shown.now) }
        requires room { length parts.old ≤ length made.old }
        ensures { OnOk result (AddsItems self.now.names.now self.now.reading (take count items.now)
            (shown_view self.now.reading round.entry.shown.now) parts.old parts.new made.old made.new) }
    {
        let mut nodes = Vec::new(self.alloc);
        for at in 0..count {
            let item = items.get(at);
            let node = made.len();
            parts.push(node)?;
            let shown = Shown::Behind(items, nodes.as_slice(), round.shown);
            let inner = Round {
                names: round.names,
                shown: &shown,
            };
            self.build(inner, item, made)?;
            nodes.push(node)?;
        }
        Ok(())
    }

    /// Adds the nodes of a choice: where one alternative is kept, those of that one.
    #[cycle(build)]
    fn build_choice(
        &self,
        place: u32,
        round: Round<'_>,
        branches: &Branches,
        made: &mut Made,
    ) -> Built
        requires quiet { BranchesQuiet self.now.names.now self.now.reading round.names branches.now }
        requires gives { (end : ℕ) × GivesFew self.now.names.now self.now.reading
            (expr place end (choice (branches_of branches.now))) (length made.old)
            (shown_view self.now.reading round.shown.now) }
        ensures { OnOk result ((end : ℕ) → Adds self.now.names.now self.now.reading
            (expr place end (choice (branches_of branches.now))) (shown_view self.now.reading round.entry.shown.now)
            made.old made.new) }
    {
        if let Some(body) = self.only_kept(branches) {
            return self.build(round, body, made);
        }
        let at = made.len();
        let mut parts = Parts::new(self.alloc);
        made.push(Node::Choice(Parts::new(self.alloc)), place)?;
        self.build_branches(round, branches, &mut parts, made)?;
        made.set(at, Node::Choice(parts));
        Ok(())
    }

    /// Adds the nodes of the alternatives that are kept, and the numbers of their first nodes.
    #[cycle(build)]
    fn build_branches(
        &self,
        round: Round<'_>,
        branches: &Branches,
        parts: &mut Parts,
        made: &mut Made,
    ) -> Built
        requires quiet { BranchesQuiet self.now.names.now self.now.reading round.names branches.now }
        requires gives { KeptGiveFew self.now.names.now self.now.reading branches.now (length made.old) (shown_view self.now.reading round.shown.now) }
        requires room { length parts.old ≤ length made.old }
        ensures { OnOk result (AddsKept self.now.names.now self.now.reading branches.now
            (shown_view self.now.reading round.entry.shown.now) parts.old parts.new made.old made.new) }
    {
        for at in 0..branches.len() {
            let branch = branches.get(at);
            if !self.is_kept(branch) {
                continue;
            }
            parts.push(made.len())?;
            self.build(round, &branch.body, made)?;
        }
        Ok(())
    }

    /// Adds the nodes of a part with an exponent.
    #[cycle(build)]
    fn build_power(
        &self,
        round: Round<'_>,
        place: u32,
        part: &Expr,
        count: &Exponent,
        made: &mut Made,
    ) -> Built
        requires quiet { (end : ℕ) × QuietAt self.now.names.now self.now.reading round.names (expr place end (power part.now count.now)) }
        requires gives { (end : ℕ) × GivesFew self.now.names.now self.now.reading
            (expr place end (power part.now count.now)) (length made.old)
            (shown_view self.now.reading round.shown.now) }
        ensures { OnOk result ((end : ℕ) → Adds self.now.names.now self.now.reading
            (expr place end (power part.now count.now)) (shown_view self.now.reading round.entry.shown.now)
            made.old made.new) }
    {
        if let Exponent::Any = count {
            if let Form::Bit = part.form {
                return made.push(Node::Rest, place);
            }
            let inner = made.len() + 1;
            made.push(Node::Many(inner), place)?;
            return self.build(round, part, made);
        }
        let count = round.shown.count(self.reading, count);
        if let Some(unit) = unit_of(part) {
            return made.push(Node::Field { unit, count }, place);
        }
        let inner = made.len() + 1;
        made.push(Node::Times { count, part: inner }, place)?;
        self.build(round, part, made)
    }

    /// Adds the nodes of a window, of which one side says the width.
    #[cycle(build)]
    fn build_both(
        &self,
        round: Round<'_>,
        left: &Expr,
        right: &Expr,
        place: u32,
        made: &mut Made,
    ) -> Built
        requires quiet { (end : ℕ) × QuietAt self.now.names.now self.now.reading round.names (expr place end (both left.now right.now)) }
        requires gives { (end : ℕ) × GivesFew self.now.names.now self.now.reading
            (expr place end (both left.now right.now)) (length made.old) (shown_view self.now.reading round.shown.now) }
        ensures { OnOk result ((end : ℕ) → Adds self.now.names.now self.now.reading
            (expr place end (both left.now right.now)) (shown_view self.now.reading round.entry.shown.now)
            made.old made.new) }
    {
        let Some(window) = window_of(left, right) else {
            unreachable!()
        };
        let unit = window.width.unit;
        let count = round.shown.width(self.reading, window.width.count);
        let part = made.len() + 1;
        made.push(Node::Window { unit, count, part }, place)?;
        self.build(round, window.part, made)
    }

    /// Adds the nodes of the rule of a name, or of a spare part.
    #[cycle(build)]
    fn build_name(&self, round: Round<'_>, place: u32, label: &Label, made: &mut Made) -> Built
        requires quiet { (end : ℕ) × QuietAt self.now.names.now self.now.reading round.names (expr place end (named label.now)) }
        requires gives { (end : ℕ) × GivesFew self.now.names.now self.now.reading (expr place end (named label.now))
            (length made.old) (shown_view self.now.reading round.shown.now) }
        ensures { OnOk result ((end : ℕ) → Adds self.now.names.now self.now.reading (expr place end (named label.now))
            (shown_view self.now.reading round.entry.shown.now) made.old made.new) }
    {
        match self.names.number(label.bytes()) {
            Some(number) => {
                let inner = Round {
                    names: round.names + 1,
                    shown: round.shown,
                };
                self.build_rule(inner, self.names.rule(number), made)
            }
            None => made.push(spare_node(label.bytes()), place),
        }
    }

    /// Adds the nodes of what a rule says.
    #[cycle(build)]
    pub(crate) fn build_rule(&self, round: Round<'_>, rule: &Rule, made: &mut Made) -> Built
        requires quiet { RuleQuiet self.now.names.now self.now.reading round.names rule.now }
        requires gives { RuleGivesFew self.now.names.now self.now.reading rule.now (length made.old) (shown_view self.now.reading round.shown.now) }
        ensures { OnOk result (AddsRule self.now.names.now self.now.reading rule.now (shown_view self.now.reading round.entry.shown.now) made.old made.new) }
    {
        match tail_of(rule) {
            Some(tail) => self.build_tail(round, rule.body.span.start, tail, made),
            None => self.build(round, &rule.body, made),
        }
    }

    /// Adds the nodes of a rule in tail form: a sequence of its items, of what is repeated of it, and of
    /// the word that stops it.
    #[cycle(build)]
    fn build_tail(&self, round: Round<'_>, place: u32, tail: Tail<'_>, made: &mut Made) -> Built
        requires within { tail.count ≤ length tail.items.now }
        requires quiet { AllQuiet self.now.names.now self.now.reading round.names (take tail.count tail.items.now) }
        requires gives { TailGivesFew self.now.names.now self.now.reading place (tail_view tail) (length made.old)
            (shown_view self.now.reading round.shown.now) }
        ensures { OnOk result (AddsTail self.now.names.now self.now.reading place (tail_view tail.entry)
            (shown_view self.now.reading round.entry.shown.now) made.old made.new) }
    {
        let at = made.len();
        let mut parts = Parts::new(self.alloc);
        made.push(Node::Seq(Parts::new(self.alloc)), place)?;
        self.build_items(round, tail.items, tail.count, &mut parts, made)?;
        parts.push(made.len())?;
        self.build_turn(round, tail, made)?;
        parts.push(made.len())?;
        let stop = tail.end.stop.run.copy(self.alloc)?;
        made.push(Node::Lits(stop), tail.end.stop.at)?;
        made.set(at, Node::Seq(parts));
        Ok(())
    }

    /// Adds the nodes of what is repeated of a rule in tail form: its word and its items again.
    #[cycle(build)]
    fn build_turn(&self, round: Round<'_>, tail: Tail<'_>, made: &mut Made) -> Built
        requires within { tail.count ≤ length tail.items.now }
        requires quiet { AllQuiet self.now.names.now self.now.reading round.names (take tail.count tail.items.now) }
        requires gives { TurnGivesFew self.now.names.now self.now.reading (tail_view tail) (length made.old) (shown_view self.now.reading round.shown.now) }
        ensures { OnOk result (AddsTurn self.now.names.now self.now.reading (tail_view tail.entry)
            (shown_view self.now.reading round.entry.shown.now) made.old made.new) }
    {
        let sequence = made.len() + 1;
        let word = sequence + 1;
        made.push(Node::Many(sequence), tail.end.braces)?;
        made.push(Node::Seq(Parts::new(self.alloc)), tail.end.again.at)?;
        let again = tail.end.again.run.copy(self.alloc)?;
        made.push(Node::Lits(again), tail.end.again.at)?;
        let mut parts = Parts::new(self.alloc);
        parts.push(word)?;
        self.build_items(round, tail.items, tail.count, &mut parts, made)?;
        made.set(sequence, Node::Seq(parts));
        Ok(())
    }

    /// The alternative that is kept, where one is.
    fn only_kept<'b>(&self, branches: &'b Branches) -> Option<&'b Expr>
        ensures { (xs : List ExprV) → Kept self.now.names.now self.now.reading (branches_of branches.now) xs → option_copied result ≡ only xs }
    {
        let mut only = None;
        for at in 0..branches.len() {
            let branch = branches.get(at);
            if !self.is_kept(branch) {
                continue;
            }
            if only.is_some() {
                return None;
            }
            only = Some(&branch.body);
        }
        only
    }

    /// Whether an alternative is kept: it does not stand behind `!`, and is not empty of strings.
    fn is_kept(&self, branch: &Branch) -> bool
        ensures { IsTrue result ↔ IsKept self.now.names.now self.now.reading branch.now }
    {
        !branch.error && !self.void.pass(&branch.body)
    }
}

/// A field of one unit.
fn one_field(unit: u8) -> Node
    ensures { result ≡ node.Field unit (Fixed 1) }
{
    Node::Field {
        unit,
        count: Count::Fixed(1),
    }
}
