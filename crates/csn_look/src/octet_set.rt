ghost use Rattle.std.specs.Prelude.{◌≡◌, ℕ, ◌+◌, ◌-◌, ◌%◌, ◌≤◌, ◌<◌, ◌↔◌, IsTrue};
ghost use Rattle.std.specs.FinSet as set;
ghost use Rattle.csn_look.specs.Told.{OctetsAre};
ghost use Rattle.csn_look.specs.Sums.{Has, IsSum, SumOf, Leads};

use std::marker::Model;

/// A set of octet positions, which are from 0 to 7. A contract sees the set of these numbers.
#[derive(Clone, Copy, Debug)]
pub struct OctetSet {
    // bit p is 1 where the position p is in the set
    marks: u8,
}

impl Model for OctetSet {
    ghost use Rattle.std.specs.Prelude.{◌<◌};
    ghost use Rattle.std.proofs.Common.{ap};
    ghost use Rattle.std.specs.Ordering.{nat_cmp};
    ghost use Rattle.std.specs.FinSet as set;
    ghost use Rattle.std.specs.Coded.{coded_ℕ};
    ghost use Rattle.csn_look.specs.Marks.{marked, marks_of, marks_of-marked};

    ghost Value = { set.FinSet nat_cmp };

    ghost coded = { set.code coded_ℕ };

    ghost view = { λ s. marked s.marks };

    ghost invariant = { λ s. s.marks < 256 };

    ghost inverse = { λ s. record { marks = marks_of s } };

    ghost inverse_ok = { λ s small. ap (λ marks. record { marks = marks }) (marks_of-marked s.marks small) };
}

impl OctetSet {
    /// No position.
    pub fn empty() -> OctetSet
        ensures { result ≡ set.empty }
    {
        OctetSet { marks: 0 }
    }

    /// The same positions and one more.
    pub fn with(self, octet: u8) -> OctetSet
        requires { octet ≤ 7 }
        ensures { result ≡ set.insert self octet }
    {
        OctetSet {
            marks: self.marks | 1 << octet,
        }
    }

    /// Whether the position is in the set.
    pub fn has(&self, octet: u8) -> bool
        requires { octet ≤ 7 }
        ensures { result ≡ set.contains self.now octet }
    {
        (self.marks >> octet) % 2 == 1
    }

    /// Every position.
    pub fn all() -> OctetSet
        ensures { (octet : ℕ) → octet ≤ 7 → Has result octet }
    {
        OctetSet { marks: 255 }
    }

    /// The positions of either set.
    pub fn union(self, other: OctetSet) -> OctetSet
        ensures { result ≡ set.union self other }
    {
        OctetSet {
            marks: self.marks | other.marks,
        }
    }

    /// The positions that lie `by` bits behind these.
    pub fn turned(self, by: u8) -> OctetSet
        requires { by ≤ 7 }
        ensures { OctetsAre result (λ octet. Has self ((octet + 8 - by) % 8)) }
    {
        let mut turned = OctetSet::empty();
        for octet in 0..8 {
            if self.has((octet + 8 - by) % 8) {
                turned = turned.with(octet);
            }
        }
        turned
    }

    /// The sums modulo 8 of a number of this set and one of the other.
    pub fn plus(self, other: OctetSet) -> OctetSet
        ensures { OctetsAre result (IsSum self other) }
    {
        let mut sums = OctetSet::empty();
        for by in 0..8 {
            if other.has(by) {
                sums = sums.union(self.turned(by));
            }
        }
        sums
    }

    /// The numbers of bits that lead back where those of this set led on, all modulo 8.
    fn back(self) -> OctetSet
        ensures { OctetsAre result (λ octet. Has self ((8 - octet) % 8)) }
    {
        let mut back = OctetSet::empty();
        for octet in 0..8 {
            if self.has((8 - octet) % 8) {
                back = back.with(octet);
            }
        }
        back
    }

    /// The positions from which as many bits as one of the lengths, which count modulo 8, lead to a
    /// position of this set.
    pub fn before(self, lengths: OctetSet) -> OctetSet
        ensures { OctetsAre result (Leads lengths self) }
    {
        self.plus(lengths.back())
    }

    /// The sums modulo 8 of `n` numbers of this set.
    pub fn times(self, n: u32) -> OctetSet
        ensures { OctetsAre result (SumOf self n) }
    {
        let mut sums = OctetSet::empty().with(0);
        let mut each = self;
        let mut left = n;
        while left > 0 {
            if left % 2 == 1 {
                sums = sums.plus(each);
            }
            each = each.plus(each);
            left /= 2;
        }
        sums
    }

    /// The sums modulo 8 of any number of numbers of this set.
    pub fn repeated(self) -> OctetSet
        ensures { OctetsAre result (λ sum. (n : ℕ) × SumOf self n sum) }
    {
        let mut sums = OctetSet::empty().with(0);
        loop {
            let more = sums.union(sums.plus(self));
            if more.marks == sums.marks {
                return sums;
            }
            sums = more;
        }
    }
}
