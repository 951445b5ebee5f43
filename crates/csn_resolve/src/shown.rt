ghost use Rattle.std.specs.Prelude.{◌≡◌, [], Some};
ghost use Rattle.csn_resolve.specs.Seen.{seen_of, seen_in};
ghost use Rattle.csn_resolve.specs.Gives.{count_at};
ghost use Rattle.csn_resolve.specs.Views.{count_view};
ghost use Rattle.csn_resolve.specs.Made.{frame_before, shown_view, IsCounted};

use crate::around::labelled_item;
use csn_desc::{Count, Reading};
use csn_grammar::{Exponent, Exprs};

/// The labelled items that a part sees, with their nodes: those before an item of each sequence and
/// truncation round it, the innermost first.
#[derive(Clone, Copy)]
pub(crate) enum Shown<'a> {
    Nothing,
    /// The first few of these items, with the numbers of their nodes, and what is seen round them.
    Behind(&'a Exprs, &'a [u16], &'a Shown<'a>),
}

/// What stands round a part: how many names are put in round it, or fewer, and the labelled items that it
/// sees.
#[derive(Clone, Copy)]
pub(crate) struct Round<'a> {
    pub names: u8,
    pub shown: &'a Shown<'a>,
}

impl<'a> Shown<'a> {
    /// The node of the item that has the label: in the innermost frame that has one, the last.
    pub(crate) fn find(&self, reading: Reading, label: &[u8]) -> Option<u16>
        ensures { result ≡ seen_of (shown_view reading self.now) label.now }
    {
        match self {
            Shown::Nothing => None,
            Shown::Behind(items, nodes, outer) => match last_with(reading, items, nodes, label) {
                Some(node) => Some(node),
                None => outer.find(reading, label),
            },
        }
    }

    /// A number exponent as a count, where it stands on no label or on one that is seen.
    pub(crate) fn count(&self, reading: Reading, count: &Exponent) -> Count
        requires { IsCounted (shown_view reading self.now) count.now }
        ensures { count_at (shown_view reading self.now) count.now ≡ Some result }
    {
        match count {
            Exponent::Any => unreachable!(),
            Exponent::Number(number) => Count::Fixed(*number),
            Exponent::Linear { m, label, c } => Count::Counted {
                m: *m as u8,
                field: self.find(reading, label.bytes()).unwrap(),
                c: *c,
            },
        }
    }

    /// The count of a window's width: once, where no exponent is written.
    pub(crate) fn width(&self, reading: Reading, count: Option<&Exponent>) -> Count
        requires { IsCounted (shown_view reading self.now) (count_view count) }
        ensures { count_at (shown_view reading self.now) (count_view count.entry) ≡ Some result }
    {
        match count {
            Some(count) => self.count(reading, count),
            None => Count::Fixed(1),
        }
    }
}

/// The node of the last of the items with nodes that has the label.
fn last_with(reading: Reading, items: &Exprs, nodes: &[u16], label: &[u8]) -> Option<u16>
    ensures { result ≡ seen_in (frame_before reading [] items.now nodes.now) label.now }
{
    for at in (0..nodes.len().min(items.len() as usize)).rev() {
        let Some(found) = labelled_item(reading, items.get(at as u32)) else {
            continue;
        };
        if found.label.bytes() == label {
            return Some(nodes[at]);
        }
    }
    None
}
