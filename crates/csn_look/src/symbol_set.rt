ghost use Rattle.std.specs.Prelude.{◌≡◌, if◌then◌else◌};
ghost use Rattle.csn_look.specs.Signs.{no_signs, with_sign, has_sign};

use std::marker::Model;

/// What stands next in a block: a bit, or the end of what is read.
#[derive(Clone, Copy, Debug, PartialEq, Eq, Hash)]
pub enum Sign {
    Zero,
    One,
    End,
}

/// A set of signs. A contract sees for each sign whether it is in the set.
#[derive(Clone, Copy, Debug, PartialEq, Eq)]
pub struct SymbolSet {
    zero: bool,
    one: bool,
    end: bool,
}

impl Model for SymbolSet {
    ghost use Rattle.csn_look.specs.SignsV.{SignsV};

    ghost Value = { SignsV };

    ghost view = { λ s. record { zero = s.zero; one = s.one; end = s.end } };

    ghost inverse = { λ v. record { zero = v.zero; one = v.one; end = v.end } };
}

impl SymbolSet {
    /// No sign.
    pub fn empty() -> SymbolSet
        ensures { result ≡ no_signs }
    {
        SymbolSet {
            zero: false,
            one: false,
            end: false,
        }
    }

    /// The same signs and one more.
    pub fn with(self, sign: Sign) -> SymbolSet
        ensures { result ≡ with_sign self sign }
    {
        match sign {
            Sign::Zero => SymbolSet { zero: true, ..self },
            Sign::One => SymbolSet { one: true, ..self },
            Sign::End => SymbolSet { end: true, ..self },
        }
    }

    /// The same signs, and one more where it is wanted.
    pub(crate) fn with_if(self, sign: Sign, wanted: bool) -> SymbolSet
        ensures { result ≡ (if wanted then with_sign self sign else self) }
    {
        if wanted { self.with(sign) } else { self }
    }

    /// The same signs where they are wanted, and else none.
    pub(crate) fn kept_if(self, wanted: bool) -> SymbolSet
        ensures { result ≡ (if wanted then self else no_signs) }
    {
        if wanted { self } else { SymbolSet::empty() }
    }

    /// Whether the sign is in the set.
    pub fn has(&self, sign: Sign) -> bool
        ensures { result ≡ has_sign self.now sign }
    {
        match sign {
            Sign::Zero => self.zero,
            Sign::One => self.one,
            Sign::End => self.end,
        }
    }
}
