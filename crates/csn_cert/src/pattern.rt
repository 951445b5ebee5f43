ghost use Rattle.std.specs.Prelude.{◌≡◌, ◌<◌, ◌≤◌, ◌++◌, ◌∷◌, [], length, slice_get, Some};
ghost use Rattle.csn_cert.specs.PatternV.{PatternV};
ghost use Rattle.csn_cert.specs.PatternText.{pattern_text, mark_character, end_character};

use arrayvec::ArrayVec;
use std::cmp::Ordering;
use std::marker::Model;

/// The most marks of a pattern: as many as there are bits of look-ahead.
pub const MOST_MARKS: usize = 12;

/// The most bytes of the text of a pattern.
pub(crate) const MOST_PATTERN_TEXT: usize = MOST_MARKS + 1;

/// What a pattern says of one bit.
#[derive(Clone, Copy, Debug, Drop, PartialEq, Eq)]
pub enum Mark {
    Zero,
    One,
    /// Either bit.
    Any,
}

impl Mark {
    /// The character that stands for the mark.
    fn character(self) -> u8
        ensures { result ≡ mark_character self }
    {
        match self {
            Mark::Zero => b'0',
            Mark::One => b'1',
            Mark::Any => b'x',
        }
    }
}

/// A key pattern, which stands for the words that have any bit at each mark `Any`. Whole says that these
/// words are all of what begins there, cut that only their first bits are told.
#[derive(Clone, Copy, Debug)]
pub struct Pattern {
    // the marks, and `Zero` behind them
    marks: [Mark; MOST_MARKS],
    len: u8,
    whole: bool,
}

impl Model for Pattern {
    ghost use Rattle.std.specs.Prelude.{length, take};
    ghost use Rattle.csn_cert.specs.PatternV.{PatternV, filled, IsFilled, filled_back};

    ghost Value = { PatternV };

    ghost view = { λ p. record { marks = take p.len p.marks; whole = p.whole } };

    ghost invariant = { λ p. IsFilled p.marks p.len };

    ghost inverse = { λ v. record { marks = filled v.marks; len = length v.marks; whole = v.whole } };

    ghost use Rattle.std.specs.Prelude.{ℕ, List, ◌≡◌};
    ghost use Rattle.std.proofs.Common.{ap, ◌∙◌};

    ghost inverse_ok = { λ p h. ap (λ m. record { marks = m; len = length (take p.len p.marks); whole = p.whole })
        (filled_back p.marks p.len h).0 ∙ ap (λ n. record { marks = p.marks; len = n; whole = p.whole })
        (filled_back p.marks p.len h).1 };
}

/// Patterns are compared by their texts, which are equal where their marks and their ends are.
impl PartialEq for Pattern {
    ghost use Rattle.std.specs.Prelude.{nat_eq};
    ghost use Rattle.std.specs.Cmp.{on_per, partial_equiv_from_equiv};
    ghost use Rattle.std.specs.Cmp.Lexicographic.{pointwise, nat_list_eq_equiv};

    ghost eq = { λ p q. pointwise nat_eq (pattern_text p) (pattern_text q) };

    ghost laws = { on_per pattern_text (partial_equiv_from_equiv nat_list_eq_equiv) };

    fn eq(&self, other: &Pattern) -> bool {
        (self.len, self.whole, self.marks) == (other.len, other.whole, other.marks)
    }
}

impl Eq for Pattern {
    ghost use Rattle.std.specs.Cmp.{on_equiv};
    ghost use Rattle.std.specs.Cmp.Lexicographic.{nat_list_eq_equiv};

    ghost laws = { on_equiv pattern_text nat_list_eq_equiv };
}

impl PartialOrd for Pattern {
    ghost use Rattle.std.specs.Cmp.{on_po};
    ghost use Rattle.std.specs.Cmp.Lexicographic.{slice_cmp, texts_po};
    ghost use Rattle.std.specs.Ordering.{nat_cmp};

    ghost partial_cmp = { λ p q. Some (slice_cmp nat_cmp (pattern_text p) (pattern_text q)) };

    ghost laws = { on_po pattern_text texts_po };

    fn partial_cmp(&self, other: &Pattern) -> Option<Ordering> {
        Some(self.cmp(other))
    }
}

impl Ord for Pattern {
    ghost use Rattle.std.specs.Prelude.{refl};
    ghost use Rattle.std.specs.Cmp.{on_total};
    ghost use Rattle.std.specs.Cmp.Lexicographic.{slice_cmp, nat_list_cmp_total, texts_ties};
    ghost use Rattle.std.specs.Ordering.{nat_cmp};

    ghost cmp = { λ p q. slice_cmp nat_cmp (pattern_text p) (pattern_text q) };

    ghost total = { on_total pattern_text nat_list_cmp_total };

    ghost matches_partial_cmp = { λ p q. refl };

    ghost matches_eq = { λ p q. texts_ties (pattern_text p) (pattern_text q) };

    fn cmp(&self, other: &Pattern) -> Ordering {
        let first = self.text();
        let second = other.text();
        first.as_slice().cmp(&second.as_slice())
    }
}

impl Pattern {
    /// A pattern without marks.
    pub fn new(whole: bool) -> Pattern
        ensures { result ≡ record { marks = []; whole = whole } }
    {
        Pattern {
            marks: [Mark::Zero; MOST_MARKS],
            len: 0,
            whole,
        }
    }

    /// Adds a mark at the end.
    pub fn push(&mut self, mark: Mark)
        requires { length self.old.marks < MOST_MARKS }
        ensures { self.new ≡ record self.old { marks = self.old.marks ++ mark ∷ [] } }
    {
        self.marks[self.len as usize] = mark;
        self.len += 1;
    }

    /// The same marks, with another end.
    pub(crate) fn with_end(mut self, whole: bool) -> Pattern
        ensures { result ≡ record { marks = self.marks; whole = whole } }
    {
        self.whole = whole;
        self
    }

    /// How many marks there are.
    pub fn len(&self) -> u8
        ensures count { result ≡ length self.now.marks }
        ensures few { result ≤ MOST_MARKS }
    {
        self.len
    }

    /// The mark at a place, counted from 0.
    pub fn get(&self, at: u8) -> Mark
        requires { at < length self.now.marks }
        ensures { slice_get self.now.marks at ≡ Some result }
    {
        self.marks[at as usize]
    }

    /// Whether the words are whole.
    pub fn whole(&self) -> bool
        ensures { result ≡ self.now.whole }
    {
        self.whole
    }

    /// The text of the pattern: its marks, or `e` where there are none, and `!` for whole or `+` for cut.
    pub(crate) fn text(&self) -> ArrayVec<u8, MOST_PATTERN_TEXT>
        ensures { result.items ≡ pattern_text self.now }
    {
        let mut text = ArrayVec::new();
        for at in 0..self.len {
            text.push(self.get(at).character());
        }
        if self.len == 0 {
            text.push(b'e');
        }
        text.push(if self.whole { b'!' } else { b'+' });
        text
    }
}
