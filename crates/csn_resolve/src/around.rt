ghost use Rattle.std.specs.Prelude.{◌≡◌, [], take, MatchOption, Some, None};
ghost use Rattle.std.specs.Option.{option_copied};
ghost use Rattle.csn_grammar.specs.Environment.{label_of};
ghost use Rattle.csn_resolve.specs.Seen.{seen_of, seen_in, inner_of};
ghost use Rattle.csn_resolve.specs.Walk.{is_among};
ghost use Rattle.csn_resolve.specs.Views.{entered_view, seen_view, frame_after};

use csn_desc::{Label, Reading};
use csn_grammar::{Expr, Exprs, Form};

/// The names that are being put in, with the asked one: the last one first.
#[derive(Clone, Copy)]
pub(crate) enum Entered<'a> {
    Nothing,
    Rule(&'a [u8], &'a Entered<'a>),
}

/// The labelled items that a part sees: those before an item of each sequence and truncation round it,
/// the innermost first.
#[derive(Clone, Copy)]
pub(crate) enum Seen<'a> {
    Nothing,
    /// The items before the one with this number, from 0, and what is seen round them.
    Behind(&'a Exprs, u32, &'a Seen<'a>),
}

impl<'a> Entered<'a> {
    /// Whether the name is being put in.
    pub(crate) fn has(&self, name: &[u8]) -> bool
        ensures { result ≡ is_among name.now (entered_view self.now) }
    {
        match self {
            Entered::Nothing => false,
            Entered::Rule(other, outer) => *other == name || outer.has(name),
        }
    }
}

impl<'a> Seen<'a> {
    /// What stands behind the label, in the innermost frame that has it, in the item that has it last.
    pub(crate) fn find(&self, reading: Reading, label: &[u8]) -> Option<&'a Expr>
        ensures { option_copied result ≡ seen_of (seen_view reading self.now) label.now }
    {
        match self {
            Seen::Nothing => None,
            Seen::Behind(items, count, outer) => match seen_in(reading, items, *count, label) {
                Some(x) => Some(x),
                None => outer.find(reading, label),
            },
        }
    }
}

/// What stands behind the label in the last of the first `count` items that has it.
fn seen_in<'a>(reading: Reading, items: &'a Exprs, count: u32, label: &[u8]) -> Option<&'a Expr>
    ensures { option_copied result ≡ seen_in (frame_after reading [] (take count items.now)) label.now }
{
    for at in (0..count.min(items.len())).rev() {
        let Some(found) = labelled_item(reading, items.get(at)) else {
            continue;
        };
        if found.label.bytes() == label {
            return Some(found.part);
        }
    }
    None
}

/// A label, and what stands behind it.
#[derive(Clone, Copy)]
pub(crate) struct Labelled<'a> {
    pub label: &'a Label,
    pub part: &'a Expr,
}

/// The label of an item and what stands behind it; `x = y` counts as the side that is taken.
pub(crate) fn labelled_item<'a>(reading: Reading, x: &'a Expr) -> Option<Labelled<'a>>
    ensures { MatchOption result (label_of reading x.now ≡ None)
        (λ item. (label_of reading x.now ≡ Some item.label.now) × (inner_of reading x.now ≡ item.part.now)) }
{
    match &x.form {
        Form::Labelled(label, part) => Some(Labelled { label, part }),
        Form::Sends(left, right) => match reading {
            Reading::Received => labelled_item(reading, left),
            Reading::Sent => labelled_item(reading, right),
        },
        _ => None,
    }
}
