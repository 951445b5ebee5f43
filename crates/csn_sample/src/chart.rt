ghost use Rattle.std.specs.Prelude.{◌≡◌, ◌-◌, ◌^◌, ◌<◌, ◌≤◌, ◌↔◌, true, false, IsTrue, if◌then◌else◌, length, min, slice_index_or, sum_by, take};
ghost use Rattle.csn_sample.specs.Spans.{numbers_at, span_at};

use crate::aim::{Aim, is_wanted};
use crate::span::{Span, span_at};
use csn_bits::MOST_BITS;
use csn_certify::Plan;
use csn_desc::Parts;

/// What a draw goes by: the plan, and for each of its nodes how many bits its strings have, which numbers it may write
/// where windows are counted on it, and what the draw goes towards.
#[derive(Clone, Copy)]
pub(crate) struct Chart<'a> {
    pub plan: &'a Plan,
    pub bits: &'a [Span],
    pub numbers: &'a [Span],
    pub aim: Aim<'a>,
}

impl Chart<'_> {
    /// How many bits the strings of a node have.
    pub fn span(&self, i: u16) -> Span
        ensures { result ≡ span_at self.now.bits.now i }
    {
        span_at(self.bits, i)
    }

    /// Which numbers a field may write.
    pub fn number(&self, i: u16) -> Span
        ensures { result ≡ numbers_at self.now.numbers.now i }
    {
        let i = usize::from(i);
        if i < self.numbers.len() {
            self.numbers[i]
        } else {
            Span::NUMBER
        }
    }

    /// Whether a block is wanted that goes through a node.
    pub fn wants(&self, i: u16) -> bool
        ensures { IsTrue result ↔ (slice_index_or self.now.aim.wanted.now i false ≡ true) }
    {
        is_wanted(self.aim.wanted, i)
    }

    /// How many fewer bits than a block an alternative has at least, where few are wanted.
    pub fn shortness(&self, i: u16) -> u64
        ensures { result ≡ (if self.now.aim.short then MOST_BITS - (span_at self.now.bits.now i).least else 0) }
    {
        if self.aim.short {
            Span::ANY.most.saturating_sub(self.span(i).least)
        } else {
            0
        }
    }

    /// One in how many times a repetition of a node ends: more seldom where it is wanted, and more often where others are,
    /// or where few bits are wanted.
    pub fn odds(&self, i: u16) -> u64
        ensures { 0 < result }
    {
        if self.wants(i) {
            8
        } else if self.aim.short {
            1
        } else if self.aim.wanted.is_empty() {
            3
        } else {
            2
        }
    }

    /// How many bits the first parts have, so many of them.
    pub fn total(&self, parts: &Parts, count: u16) -> Span
        requires { count ≤ length parts.now }
        ensures least { result.least ≡ min (sum_by (λ i. (span_at self.now.bits.now i).least) (take count parts.now)) (2 ^ 64 - 1) }
        ensures most { result.most ≡ min (sum_by (λ i. (span_at self.now.bits.now i).most) (take count parts.now)) (2 ^ 64 - 1) }
    {
        let mut total = Span::NONE;
        for at in 0..count {
            total = total.and(self.span(parts.get(at)));
        }
        total
    }
}
