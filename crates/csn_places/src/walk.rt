//! The walk through a rule with names put in, in the order in which its nodes are numbered.

ghost use Rattle.std.specs.Prelude.{◌≡◌, ◌≤◌, ◌++◌, Bool, take, length, OnOk};
ghost use Rattle.csn_grammar.specs.ExprV.{ExprV, exprs_of, branches_of};
ghost use Rattle.csn_resolve.specs.declared.marks.Test.TheVariants.{Void};
ghost use Rattle.csn_resolve.specs.Views.{tail_view};
ghost use Rattle.csn_places.specs.Origins.{Tells, origins, items_origins, branches_origins, choice_origins, is_kept, kept_in};
ghost use Rattle.csn_places.specs.Origins.{named_at, rule_origins, tail_origins};

use crate::form::{is_one_node, is_width};
use crate::origin::{Origin, PutIn, push_origin, with_name};
use csn_bits::NoMemory;
use csn_desc::{Label, Reading};
use csn_grammar::{Branch, Branches, Expr, Exprs, Form, Rule};
use csn_resolve::{Marks, Names, Tail, tail_of};
use std::alloc::Global;

/// Nothing but want of memory keeps origins from being added.
type Added = Result<(), NoMemory>;

/// What the walk asks: the rules by their names, and which of them are empty of strings in the reading.
#[derive(Clone, Copy)]
pub(crate) struct Walker<'a> {
    pub alloc: Global,
    pub names: &'a Names<'a>,
    pub reading: Reading,
    pub void: &'a Marks<'a>,
    ghost marks: { void.now ≡ record { rules = names.now; test = Void reading } },
}

impl<'a> Walker<'a> {
    /// Adds the origins of the nodes of an expression that these names are put in round; `left` more may be.
    #[cycle(walk)]
    pub(crate) fn walk(&self, left: u8, round: &PutIn, x: &Expr, out: &mut Vec<Origin>) -> Added
        ensures { OnOk result ((void : ExprV → Bool) → Tells self.now.names.now self.now.reading void → out.new.items ≡ out.old.items
            ++ origins self.now.reading void round.now
            (named_at self.now.names.now self.now.reading void left round.now)
            x.now) }
    {
        let place = x.span.start;
        match &x.form {
            Form::Lits(_) => push_origin(self.alloc, round, place, out),
            Form::Null => push_origin(self.alloc, round, place, out),
            Form::Bit => push_origin(self.alloc, round, place, out),
            Form::Octet => push_origin(self.alloc, round, place, out),
            Form::Name(label) => self.walk_name(left, round, place, label, out),
            Form::Labelled(_, part) => {
                push_origin(self.alloc, round, place, out)?;
                self.walk(left, round, part, out)
            }
            Form::Group(part) => self.walk(left, round, part, out),
            Form::Seq(items) => {
                push_origin(self.alloc, round, place, out)?;
                self.walk_items(left, round, items, items.len(), out)
            }
            Form::Choice(branches) => self.walk_choice(left, round, place, branches, out),
            Form::Power(part, count) => {
                push_origin(self.alloc, round, place, out)?;
                if is_one_node(part, count) {
                    return Ok(());
                }
                self.walk(left, round, part, out)
            }
            Form::Cut(items) => {
                push_origin(self.alloc, round, place, out)?;
                self.walk_items(left, round, items, items.len(), out)
            }
            Form::Both(one, other) => {
                push_origin(self.alloc, round, place, out)?;
                if is_width(one) {
                    self.walk(left, round, other, out)
                } else {
                    self.walk(left, round, one, out)
                }
            }
            Form::Sends(one, other) => match self.reading {
                Reading::Received => self.walk(left, round, one, out),
                Reading::Sent => self.walk(left, round, other, out),
            },
        }
    }

    /// Adds those of the first `count` items of a sequence or truncation.
    #[cycle(walk)]
    fn walk_items(
        &self,
        left: u8,
        round: &PutIn,
        items: &Exprs,
        count: u32,
        out: &mut Vec<Origin>,
    ) -> Added
        requires within { count ≤ length items.now }
        ensures { OnOk result ((void : ExprV → Bool) → Tells self.now.names.now self.now.reading void → out.new.items ≡ out.old.items
            ++ items_origins self.now.reading void round.now
            (named_at self.now.names.now self.now.reading void left round.now)
            (exprs_of (take count items.now))) }
    {
        for at in 0..count {
            self.walk(left, round, items.get(at), out)?;
        }
        Ok(())
    }

    /// Adds those of a choice: where one alternative is kept, those of that one.
    #[cycle(walk)]
    fn walk_choice(
        &self,
        left: u8,
        round: &PutIn,
        place: u32,
        branches: &Branches,
        out: &mut Vec<Origin>,
    ) -> Added
        ensures { OnOk result ((void : ExprV → Bool) → Tells self.now.names.now self.now.reading void → out.new.items ≡ out.old.items
            ++ choice_origins place round.now
            (kept_in void (branches_of branches.now))
            (branches_origins self.now.reading void round.now
            (named_at self.now.names.now self.now.reading void left round.now)
            (branches_of branches.now))) }
    {
        if self.kept_in(branches) != 1 {
            push_origin(self.alloc, round, place, out)?;
        }
        self.walk_branches(left, round, branches, out)
    }

    /// Adds those of the alternatives that are kept.
    #[cycle(walk)]
    fn walk_branches(
        &self,
        left: u8,
        round: &PutIn,
        branches: &Branches,
        out: &mut Vec<Origin>,
    ) -> Added
        ensures { OnOk result ((void : ExprV → Bool) → Tells self.now.names.now self.now.reading void → out.new.items ≡ out.old.items
            ++ branches_origins self.now.reading void round.now
            (named_at self.now.names.now self.now.reading void left round.now)
            (branches_of branches.now)) }
    {
        for at in 0..branches.len() {
            let branch = branches.get(at);
            if !self.is_kept(branch) {
                continue;
            }
            self.walk(left, round, &branch.body, out)?;
        }
        Ok(())
    }

    /// Adds those of the rule of a name, or that of a spare part.
    #[cycle(walk)]
    fn walk_name(
        &self,
        left: u8,
        round: &PutIn,
        place: u32,
        label: &Label,
        out: &mut Vec<Origin>,
    ) -> Added
        ensures { OnOk result ((void : ExprV → Bool) → Tells self.now.names.now self.now.reading void → out.new.items ≡ out.old.items
            ++ named_at self.now.names.now self.now.reading void left round.now
            label.now place) }
    {
        match self.names.number(label.bytes()) {
            Some(number) => {
                if left == 0 {
                    return Ok(());
                }
                let inner = with_name(self.alloc, round, place)?;
                self.walk_rule(left - 1, &inner, self.names.rule(number), out)
            }
            None => push_origin(self.alloc, round, place, out),
        }
    }

    /// Adds those of what a rule says.
    #[cycle(walk)]
    pub(crate) fn walk_rule(
        &self,
        left: u8,
        round: &PutIn,
        rule: &Rule,
        out: &mut Vec<Origin>,
    ) -> Added
        ensures { OnOk result ((void : ExprV → Bool) → Tells self.now.names.now self.now.reading void → out.new.items ≡ out.old.items
            ++ rule_origins self.now.reading void round.now
            (named_at self.now.names.now self.now.reading void left round.now)
            rule.now) }
    {
        match tail_of(rule) {
            Some(tail) => self.walk_tail(left, round, rule.body.span.start, tail, out),
            None => self.walk(left, round, &rule.body, out),
        }
    }

    /// Adds those of a rule in tail form: its sequence and its items, the repetition, the sequence and the word
    /// in it and the items again, and the word that stops it.
    #[cycle(walk)]
    fn walk_tail(
        &self,
        left: u8,
        round: &PutIn,
        place: u32,
        tail: Tail<'_>,
        out: &mut Vec<Origin>,
    ) -> Added
        requires within { tail.count ≤ length tail.items.now }
        ensures { OnOk result ((void : ExprV → Bool) → Tells self.now.names.now self.now.reading void → out.new.items ≡ out.old.items
            ++ tail_origins self.now.reading void round.now
            (named_at self.now.names.now self.now.reading void left round.now)
            place (tail_view tail.entry)) }
    {
        push_origin(self.alloc, round, place, out)?;
        self.walk_items(left, round, tail.items, tail.count, out)?;
        push_origin(self.alloc, round, tail.end.braces, out)?;
        push_origin(self.alloc, round, tail.end.again.at, out)?;
        push_origin(self.alloc, round, tail.end.again.at, out)?;
        self.walk_items(left, round, tail.items, tail.count, out)?;
        push_origin(self.alloc, round, tail.end.stop.at, out)
    }

    /// How many alternatives are kept.
    fn kept_in(&self, branches: &Branches) -> u32
        ensures { (void : ExprV → Bool) → Tells self.now.names.now self.now.reading void → result ≡ kept_in void (branches_of branches.now) }
    {
        let mut kept = 0;
        for at in 0..branches.len() {
            if !self.is_kept(branches.get(at)) {
                continue;
            }
            kept += 1;
        }
        kept
    }

    /// Whether an alternative is kept: it does not stand behind `!`, and is not empty of strings.
    fn is_kept(&self, branch: &Branch) -> bool
        ensures { (void : ExprV → Bool) → Tells self.now.names.now self.now.reading void → result ≡ is_kept void branch.now }
    {
        !branch.error && !self.void.pass(&branch.body)
    }
}
