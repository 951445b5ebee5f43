//! The labelled fields of an old description, each with the one that takes it.

ghost use Rattle.std.specs.Prelude.{◌≡◌, ◌↔◌, ◌==◌, ◌&&◌, IsTrue, ◌<◌, ◌*◌, length};
ghost use Rattle.csn_desc.specs.Formed.{IsDescription, value_width, is_counted};
ghost use Rattle.csn_compat.specs.Pairs.{are_paired, same_width, with_kept, CountsAgree};

use arrayvec::ArrayVec;
use csn_desc::{Count, Desc, Node};

/// The most labelled fields that counts stand on and that one node sees.
pub(crate) const MOST_PAIRS: usize = 64;

/// A labelled field of the old description, and the one of the new description that takes its bits.
#[derive(Clone, Copy, Default)]
pub(crate) struct Pair {
    /// The node of the old label.
    pub before: u16,
    /// The node of the new label.
    pub after: u16,
}

/// The pairs whose old field some count stands on.
pub(crate) type Pairs = ArrayVec<Pair, MOST_PAIRS>;

/// Whether these two fields are a pair.
fn are_paired(pairs: &Pairs, field: u16, taker: u16) -> bool
    ensures { result ≡ are_paired pairs.now.items field taker }
{
    pairs.as_slice().iter().any(
        |pair: &Pair| -> bool
            ensures { result ≡ (pair.now.before == field && pair.now.after == taker) }
        { pair.before == field && pair.after == taker },
    )
}

/// Whether two counts, of units of so many bits, are as many bits.
pub(crate) fn counts_agree(pairs: &Pairs, unit: u8, count: &Count, other: u8, taker: &Count) -> bool
    ensures { IsTrue result ↔ CountsAgree pairs.now.items unit count.now other taker.now }
{
    match (count, taker) {
        (Count::Fixed(n), Count::Fixed(k)) => bits_of(unit, *n) == bits_of(other, *k),
        (
            Count::Counted { m, field, c },
            Count::Counted {
                m: n,
                field: taker,
                c: e,
            },
        ) => { unit == other && m == n && c == e && are_paired(pairs, *field, *taker) }
        _ => false,
    }
}

/// How many bits so many units are.
pub(crate) fn bits_of(unit: u8, n: u32) -> u64
    ensures { result ≡ unit * n }
{
    u64::from(unit) * u64::from(n)
}

/// How many bits a labelled field of constant width has, where the node is one.
fn value_width(desc: &Desc, i: u16) -> Option<u64>
    requires description { IsDescription desc.now }
    requires within { i < length desc.now.nodes }
    ensures { result ≡ value_width desc.now.nodes i }
{
    let Node::Named { part, .. } = desc.node(i) else {
        return None;
    };
    match desc.node(*part) {
        Node::Field {
            unit,
            count: Count::Fixed(n),
        } => Some(bits_of(*unit, *n)),
        _ => None,
    }
}

/// Keeps two parts as a pair, where they are labelled fields of one width and some count stands on the old one.
pub(crate) fn keep(was: &Desc, now: &Desc, p: u16, q: u16, pairs: &mut Pairs)
    requires old { IsDescription was.now }
    requires new { IsDescription now.now }
    requires p { p < length was.now.nodes }
    requires q { q < length now.now.nodes }
    requires room { IsTrue (is_counted was.now.nodes p) → length pairs.old.items < MOST_PAIRS }
    ensures { pairs.new.items ≡ with_kept was.now now.now p q pairs.old.items }
{
    if was.counts(p) && have_one_width(value_width(was, p), value_width(now, q)) {
        pairs.push(Pair {
            before: p,
            after: q,
        });
    }
}

/// Whether two widths are there and equal.
fn have_one_width(width: Option<u64>, other: Option<u64>) -> bool
    ensures { result ≡ same_width width other }
{
    width.is_some() && width == other
}
