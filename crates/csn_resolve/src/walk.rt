ghost use Rattle.std.specs.Prelude.{◌≡◌, ◌≤◌, ◌<◌, ◌+◌, ℕ, List, [], Some, take, length, max};
ghost use Rattle.csn_grammar.specs.declared.rules.Rule.{Rule as RuleV};
ghost use Rattle.csn_grammar.specs.ExprV.{exprs_of, branches_of, expr, name as named, power, both};
ghost use Rattle.csn_grammar.specs.ExprCode.{expr_size, list_size, branch_list_size};
ghost use Rattle.csn_grammar.specs.TailForm.{tail_of};
ghost use Rattle.csn_resolve.specs.Gives.{start_of};
ghost use Rattle.csn_resolve.specs.Steps.{Step};
ghost use Rattle.csn_resolve.specs.Walk.{Walk, ItemsWalk, BranchesWalk, RuleWalk};
ghost use Rattle.csn_resolve.specs.Going.{Goes};
ghost use Rattle.csn_resolve.specs.Views.{around_view, tail_view};
ghost use Rattle.csn_resolve.specs.Depths.{deepest};

use crate::around::{Entered, Seen};
use crate::begun::{Around, Begun};
use crate::fault::ResolveFault;
use crate::form::width_of;
use crate::names::is_built_in;
use crate::steps::{begin, begin_turn, behind, enter, inside, refusal};
use crate::tail::{Tail, tail_of};
use crate::walker::Walker;
use crate::why::Why;
use csn_desc::Label;
use csn_grammar::{Branches, Exponent, Expr, Exprs, Form, Rule};

/// How many nodes are begun behind what is walked through.
type Walked = Result<Begun, ResolveFault>;

impl<'a> Walker<'a> {
    /// Walks through an expression up to its first refusal: how many nodes are begun behind it.
    #[cycle(walk)]
    pub(crate) fn walk(&self, around: Around<'_>, x: &Expr, begun: Begun) -> Walked
        requires { expr_size x.now ≤ deepest self.now.names.now }
        ensures { (steps : List Step) → Walk self.now.names.now self.now.reading (around_view self.now.reading around.entry) x.now steps
            → Goes begun.nodes steps result }
    {
        let place = x.span.start;
        match &x.form {
            Form::Lits(_) => begin(around, place, begun),
            Form::Null => begin(around, place, begun),
            Form::Bit => begin(around, place, begun),
            Form::Octet => begin(around, place, begun),
            Form::Name(label) => self.walk_name(around, place, label, begun),
            Form::Labelled(_, part) => {
                let begun = begin(around, place, begun)?;
                self.walk(inside(around), part, begun)
            }
            Form::Group(part) => {
                enter(around, place)?;
                self.walk(inside(around), part, begun)
            }
            Form::Seq(items) => {
                let begun = begin(around, place, begun)?;
                self.walk_items(inside(around), items, items.len(), false, begun)
            }
            Form::Choice(branches) => {
                let begun = begin(around, place, begun)?;
                self.walk_branches(inside(around), branches, begun)
            }
            Form::Power(part, count) => self.walk_power(around, place, part, count, begun),
            Form::Cut(items) => {
                let begun = begin(around, place, begun)?;
                self.walk_items(inside(around), items, items.len(), true, begun)
            }
            Form::Both(left, right) => self.walk_both(around, left, right, place, begun),
            Form::Sends(left, right) => {
                let begun = self.walk(around, left, begun)?;
                self.walk(around, right, begun)
            }
        }
    }

    /// Walks through alternatives.
    #[cycle(walk)]
    fn walk_branches(&self, around: Around<'_>, branches: &Branches, begun: Begun) -> Walked
        requires { branch_list_size branches.now ≤ deepest self.now.names.now }
        ensures { (steps : List Step)
            → BranchesWalk self.now.names.now self.now.reading (around_view self.now.reading around.entry) (branches_of branches.now) steps
            → Goes begun.nodes steps result }
    {
        let mut begun = begun;
        for at in 0..branches.len() {
            let branch = branches.get(at);
            begun = self.walk(around, &branch.body, begun)?;
            self.leave_branch(branch.error, &branch.body)?;
        }
        Ok(begun)
    }

    /// Walks through a part with an exponent.
    #[cycle(walk)]
    fn walk_power(
        &self,
        around: Around<'_>,
        place: u32,
        part: &Expr,
        count: &Exponent,
        begun: Begun,
    ) -> Walked
        requires { expr_size part.now + 1 ≤ deepest self.now.names.now }
        ensures { (end : ℕ) (steps : List Step)
            → Walk self.now.names.now self.now.reading (around_view self.now.reading around.entry) (expr place end (power part.now count.now)) steps
            → Goes begun.nodes steps result }
    {
        let begun = begin(around, place, begun)?;
        if self.is_leaf(around.seen, place, part, count)? {
            return Ok(begun);
        }
        let begun = self.walk(inside(around), part, begun)?;
        self.leave_part(part)?;
        Ok(begun)
    }

    /// Walks through both sides of `&`, of which one says how many bits the other has.
    #[cycle(walk)]
    fn walk_both(
        &self,
        around: Around<'_>,
        left: &Expr,
        right: &Expr,
        place: u32,
        begun: Begun,
    ) -> Walked
        requires { max (expr_size left.now) (expr_size right.now) + 1 ≤ deepest self.now.names.now }
        ensures { (end : ℕ) (steps : List Step)
            → Walk self.now.names.now self.now.reading (around_view self.now.reading around.entry) (expr place end (both left.now right.now)) steps
            → Goes begun.nodes steps result }
    {
        let begun = begin(around, place, begun)?;
        if let Some(width) = width_of(left) {
            self.check_width(around.seen, left.span.start, width.count)?;
            return self.walk(inside(around), right, begun);
        }
        if let Some(width) = width_of(right) {
            let begun = self.walk(inside(around), left, begun)?;
            self.check_width(around.seen, right.span.start, width.count)?;
            return Ok(begun);
        }
        Err(refusal(Why::IntersectionForm, left.span.start))
    }

    /// Walks through the rule of a name.
    #[cycle(walk)]
    fn walk_name(&self, around: Around<'_>, place: u32, label: &Label, begun: Begun) -> Walked
        ensures { (end : ℕ) (steps : List Step)
            → Walk self.now.names.now self.now.reading (around_view self.now.reading around.entry) (expr place end (named label.now)) steps
            → Goes begun.nodes steps result }
    {
        if is_built_in(label.bytes()) {
            return begin(around, place, begun);
        }
        enter(around, place)?;
        let Some(number) = self.names.number(label.bytes()) else {
            return Err(refusal(Why::Undefined, place));
        };
        if around.names.has(label.bytes()) {
            return Err(refusal(Why::Recursive, place));
        }
        let names = Entered::Rule(label.bytes(), around.names);
        let inner = Around {
            depth: around.depth + 1,
            names: &names,
            seen: around.seen,
        };
        self.walk_rule(inner, self.names.rule(number), begun)
    }

    /// Walks through what a rule says.
    #[cycle(walk)]
    pub(crate) fn walk_rule(&self, around: Around<'_>, rule: &Rule, begun: Begun) -> Walked
        requires { expr_size rule.now.body ≤ deepest self.now.names.now }
        ensures { (steps : List Step) → RuleWalk self.now.names.now self.now.reading (around_view self.now.reading around.entry) rule.now steps
            → Goes begun.nodes steps result }
    {
        match tail_of(rule) {
            Some(tail) => self.walk_tail(around, rule.body.span.start, tail, begun),
            None => self.walk(around, &rule.body, begun),
        }
    }

    /// Walks through the first `count` items of a sequence, of which each sees those before it; or components of
    /// a truncation, which are to be `full`: none may be empty of strings.
    #[cycle(walk)]
    fn walk_items(
        &self,
        around: Around<'_>,
        items: &Exprs,
        count: u32,
        full: bool,
        begun: Begun,
    ) -> Walked
        requires within { count ≤ length items.now }
        requires part { list_size items.now ≤ deepest self.now.names.now }
        ensures { (steps : List Step)
            → ItemsWalk self.now.names.now self.now.reading full (around_view self.now.reading around.entry) [] (exprs_of (take count items.now)) steps
            → Goes begun.nodes steps result }
    {
        let mut begun = begun;
        for at in 0..count {
            let item = items.get(at);
            let seen = Seen::Behind(items, at, around.seen);
            begun = self.walk(behind(around, &seen), item, begun)?;
            self.leave_item(full, item)?;
        }
        Ok(begun)
    }

    /// Walks through a rule in tail form: its items, then braces round its word and its items that are
    /// repeated, then the word that stops it.
    #[cycle(walk)]
    fn walk_tail(&self, around: Around<'_>, place: u32, tail: Tail<'_>, begun: Begun) -> Walked
        requires within { tail.count ≤ length tail.items.now }
        requires part { list_size tail.items.now + 1 ≤ deepest self.now.names.now }
        ensures { (rule : RuleV) (steps : List Step)
            → tail_of rule ≡ Some (tail_view tail.entry) → start_of rule.body ≡ place
            → RuleWalk self.now.names.now self.now.reading (around_view self.now.reading around.entry) rule steps
            → Goes begun.nodes steps result }
    {
        let begun = begin(around, place, begun)?;
        let inner = inside(around);
        let begun = self.walk_items(inner, tail.items, tail.count, false, begun)?;
        let turn = begin_turn(inner, tail.end, begun)?;
        let begun = self.walk_items(turn.around, tail.items, tail.count, false, turn.begun)?;
        self.leave_turn(tail)?;
        begin(inner, tail.end.stop.at, begun)
    }
}
