ghost use Rattle.std.specs.Prelude.{◌≡◌, ◌+◌, ◌-◌, ◌*◌, ◌/◌, ◌^◌, min, max};
ghost use Rattle.std.specs.Int.{div_ceil};
ghost use Rattle.csn_sample.specs.Spans.{numbers_within, span_at};

use csn_bits::MOST_BITS;

/// How many bits the strings of a part have, as an estimate: seldom fewer, and seldom more. None is above the most bits
/// of a block.
#[derive(Clone, Copy, Debug, PartialEq, Eq)]
pub(crate) struct Span {
    pub least: u64,
    pub most: u64,
}

impl Span {
    /// No bits.
    pub const NONE: Span = Span { least: 0, most: 0 };

    /// Any number of bits.
    pub const ANY: Span = Span {
        least: 0,
        most: MOST_BITS as u64,
    };

    /// Any number on which a count is.
    pub const NUMBER: Span = Span {
        least: 0,
        most: 65535,
    };

    /// As many bits.
    pub fn exactly(bits: u64) -> Span
        ensures least { result.least ≡ bits }
        ensures most { result.most ≡ bits }
    {
        Span {
            least: bits,
            most: bits,
        }
    }

    /// This part and another.
    pub fn and(self, other: Span) -> Span
        ensures least { result.least ≡ min (self.least + other.least) (2 ^ 64 - 1) }
        ensures most { result.most ≡ min (self.most + other.most) (2 ^ 64 - 1) }
    {
        Span {
            least: self.least.saturating_add(other.least),
            most: self.most.saturating_add(other.most),
        }
    }

    /// Without a part that it has counted in.
    pub fn without(self, other: Span) -> Span
        ensures least { result.least ≡ self.least - other.least }
        ensures most { result.most ≡ self.most - other.most }
    {
        Span {
            least: self.least.saturating_sub(other.least),
            most: self.most.saturating_sub(other.most),
        }
    }

    /// One of this part and another.
    pub fn or(self, other: Span) -> Span
        ensures least { result.least ≡ min self.least other.least }
        ensures most { result.most ≡ max self.most other.most }
    {
        Span {
            least: self.least.min(other.least),
            most: self.most.max(other.most),
        }
    }

    /// As often as another span says.
    pub fn times(self, turns: Span) -> Span
        ensures least { result.least ≡ min (self.least * turns.least) (2 ^ 64 - 1) }
        ensures most { result.most ≡ min (self.most * turns.most) (2 ^ 64 - 1) }
    {
        Span {
            least: self.least.saturating_mul(turns.least),
            most: self.most.saturating_mul(turns.most),
        }
    }

    /// Of these numbers those of which `m` times the number and `c` more is as many units as a part of such a span has, or
    /// all of them where there is none.
    pub fn counting(self, part: Span, unit: u64, m: u64, c: u64) -> Span
        ensures numbers { result ≡ numbers_within self
            (div_ceil (div_ceil part.least (max unit 1) - c) (max m 1)) ((part.most / max unit 1 - c) / max m 1) }
    {
        let unit = unit.max(1);
        let m = m.max(1);
        let least = part.least.div_ceil(unit).saturating_sub(c).div_ceil(m);
        let most = (part.most / unit).saturating_sub(c) / m;
        let both = Span {
            least: self.least.max(least),
            most: self.most.min(most),
        };
        if both.least <= both.most { both } else { self }
    }

    /// No more than a block has.
    pub fn in_block(self) -> Span
        ensures least { result.least ≡ min self.least MOST_BITS }
        ensures most { result.most ≡ min self.most MOST_BITS }
    {
        Span {
            least: self.least.min(u64::from(MOST_BITS)),
            most: self.most.min(u64::from(MOST_BITS)),
        }
    }
}

/// The span of a node. One that is not there has no bits.
pub(crate) fn span_at(spans: &[Span], i: u16) -> Span
    ensures { result ≡ span_at spans.now i }
{
    let i = usize::from(i);
    if i < spans.len() {
        spans[i]
    } else {
        Span::NONE
    }
}
