ghost use Rattle.std.specs.Prelude.{◌≡◌, ◌≤◌, List, length};
ghost use Rattle.csn_resolve.specs.Steps.{Step};
ghost use Rattle.csn_resolve.specs.Counts.{CountSteps, is_zero, is_too_large, size_steps};
ghost use Rattle.csn_resolve.specs.Walk.{PartLeft, ItemLeft, BranchLeft, TurnLeft};
ghost use Rattle.csn_resolve.specs.Going.{Checks, LeafGoes};
ghost use Rattle.csn_resolve.specs.Views.{count_view, seen_view, tail_view};

use crate::around::Seen;
use crate::fault::ResolveFault;
use crate::form::unit_of;
use crate::steps::refusal;
use crate::tail::Tail;
use crate::walker::Walker;
use crate::why::Why;
use csn_grammar::{Exponent, Expr, Form};

impl<'a> Walker<'a> {
    /// A part that must not be empty of strings is left.
    pub(crate) fn leave_part(&self, part: &Expr) -> Result<(), ResolveFault>
        ensures { (steps : List Step) → PartLeft self.now.names.now self.now.reading part.now steps → Checks steps result }
    {
        if self.void.pass(part) {
            return Err(refusal(Why::NoString, part.span.start));
        }
        Ok(())
    }

    /// An item or a component is left.
    pub(crate) fn leave_item(&self, full: bool, item: &Expr) -> Result<(), ResolveFault>
        ensures { (steps : List Step) → ItemLeft self.now.names.now self.now.reading full item.now steps → Checks steps result }
    {
        if full {
            return self.leave_part(item);
        }
        Ok(())
    }

    /// An alternative is left: one behind `!` is empty of strings for a sender.
    pub(crate) fn leave_branch(&self, error: bool, body: &Expr) -> Result<(), ResolveFault>
        ensures { (steps : List Step) → BranchLeft self.now.names.now self.now.reading error body.now steps → Checks steps result }
    {
        if error && !self.void_sent.pass(body) {
            return Err(refusal(Why::ErrorBranchForm, body.span.start));
        }
        Ok(())
    }

    /// The braces that a rule in tail form repeats are left: none of its items may be empty of strings.
    pub(crate) fn leave_turn(&self, tail: Tail<'_>) -> Result<(), ResolveFault>
        requires { tail.count ≤ length tail.items.now }
        ensures { (steps : List Step) → TurnLeft self.now.names.now self.now.reading (tail_view tail.entry) steps → Checks steps result }
    {
        for at in 0..tail.count {
            if self.void.pass(tail.items.get(at)) {
                return Err(refusal(Why::NoString, tail.end.braces));
            }
        }
        Ok(())
    }

    /// The exponent of a part that begins at `place` is a number: its label and its size are checked.
    pub(crate) fn check_count(
        &self,
        seen: &Seen<'_>,
        place: u32,
        count: &Exponent,
    ) -> Result<(), ResolveFault>
        ensures { (steps : List Step)
            → CountSteps self.now.names.now self.now.reading (seen_view self.now.reading seen.now) place count.now steps → Checks steps result }
    {
        match count {
            Exponent::Any => Ok(()),
            Exponent::Number(_) => check_size(place, count),
            Exponent::Linear { label, .. } => {
                let Some(item) = seen.find(self.reading, label.bytes()) else {
                    return Err(refusal(Why::ValUnknown, place));
                };
                if !self.narrow.pass(item) {
                    return Err(refusal(Why::ValWidth, place));
                }
                check_size(place, count)
            }
        }
    }

    /// The count of a window's width is checked, where an exponent says it.
    pub(crate) fn check_width(
        &self,
        seen: &Seen<'_>,
        place: u32,
        count: Option<&Exponent>,
    ) -> Result<(), ResolveFault>
        ensures { (steps : List Step)
            → CountSteps self.now.names.now self.now.reading (seen_view self.now.reading seen.now) place (count_view count.entry) steps
            → Checks steps result }
    {
        match count {
            Some(count) => self.check_count(seen, place, count),
            None => Ok(()),
        }
    }

    /// The exponent of a part that begins at `place` is checked, if it is a number: whether the part is a
    /// field or `bit **`, which has nothing more to walk.
    pub(crate) fn is_leaf(
        &self,
        seen: &Seen<'_>,
        place: u32,
        part: &Expr,
        count: &Exponent,
    ) -> Result<bool, ResolveFault>
        ensures { LeafGoes self.now.names.now self.now.reading (seen_view self.now.reading seen.now) place part.now count.now result }
    {
        if let Exponent::Any = count {
            return Ok(matches!(part.form, Form::Bit));
        }
        self.check_count(seen, place, count)?;
        Ok(unit_of(part).is_some())
    }
}

/// The numbers of an exponent are checked: none is zero, and none is too large.
fn check_size(place: u32, count: &Exponent) -> Result<(), ResolveFault>
    ensures { Checks (size_steps count.now place) result }
{
    if is_zero(count) {
        return Err(refusal(Why::ZeroCount, place));
    }
    if is_too_large(count) {
        return Err(refusal(Why::CountTooLarge, place));
    }
    Ok(())
}

/// Whether the constant, or the multiplier, is 0.
fn is_zero(count: &Exponent) -> bool
    ensures { result ≡ is_zero count.now }
{
    match count {
        Exponent::Any => false,
        Exponent::Number(number) => *number == 0,
        Exponent::Linear { m, .. } => *m == 0,
    }
}

/// Whether the constant is more than 65,536, the multiplier more than 255, or the summand more than 65,535.
fn is_too_large(count: &Exponent) -> bool
    ensures { result ≡ is_too_large count.now }
{
    match count {
        Exponent::Any => false,
        Exponent::Number(number) => *number > 65_536,
        Exponent::Linear { m, c, .. } => *m > 255 || *c > 65_535,
    }
}
