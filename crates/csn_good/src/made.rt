//! The patterns that the equations make.

ghost use Rattle.std.specs.Prelude.{◌≡◌, ◌<◌, ◌≤◌, ◌+◌, ◌-◌, ◌%◌, ◌++◌, ◌⊎◌, ◌↔◌, ◌∷◌, ℕ, [], List, true, length};
ghost use Rattle.std.specs.Prelude.{slice_get, IsTrue, IsSome, Contains, Some, OnOk, IfOk, IfSome};
ghost use Rattle.csn_cert.specs.PatternV.{PatternV};
ghost use Rattle.csn_cert.specs.Growing.{claimed};
ghost use Rattle.csn_cert.specs.declared.pattern.TheConstants.{MOST_MARKS};
ghost use Rattle.csn_good.specs.Octets.{PartsWithin};
ghost use Rattle.csn_good.specs.Patterns.{PartsPatterns, TimesPatterns};
ghost use Rattle.csn_good.specs.Made.{MadeAt, AreMade, FirstMakes, PartMakes};
ghost use Rattle.csn_good.specs.Behind.{cut_to, CutsSome, MakesSame, IsBehind, AreBehind};

use crate::pattern_set::{PatternSet, joined, number_of};
use csn_bits::NoMemory;
use csn_cert::{Certificate, MOST_MARKS, Pattern};
use csn_desc::Parts;
use std::alloc::Global;

/// So many patterns are joined with all that stands behind them as soon as that is cut.
const FEW: u32 = 8;

/// The patterns that are made from each octet position on.
#[derive(Drop)]
pub(crate) struct Made {
    pub at: Vec<PatternSet>,
}

impl Made {
    /// Those of no parts.
    fn none(alloc: Global) -> Result<Made, NoMemory>
        ensures { IfOk result (λ made. AreMade made.at.items (λ o p. p ≡ record { marks = []; whole = true })) }
    {
        let mut at = Vec::new(alloc);
        for octet in 0..8u8 {
            at.push(PatternSet::nothing(alloc)?)?;
        }
        Ok(Made { at })
    }

    /// Those from one octet position on.
    pub fn set_at(&self, octet: u8) -> &PatternSet
        requires made { length self.now.at.items ≡ 8 }
        requires octet { octet ≤ 7 }
        ensures { slice_get self.now.at.items octet ≡ Some result.now }
    {
        &self.at[octet as usize]
    }

    /// What stands behind the patterns of part `i` at an octet position that have so many marks, cut to the marks that
    /// there is room for, where two patterns or more have so many. For one alone nothing would be spared.
    fn behind_size(
        &self,
        alloc: Global,
        c: &Certificate,
        i: u16,
        octet: u8,
        size: u8,
    ) -> Result<Option<PatternSet>, NoMemory>
        requires made { length self.now.at.items ≡ 8 }
        requires octet { octet ≤ 7 }
        requires size { size ≤ MOST_MARKS }
        requires has { IsSome (claimed c.now i octet) }
        ensures { IfOk result (λ behind. IfSome behind (IsBehind self.now.at.items octet size)) }
    {
        let mut one = false;
        for k in 0..c.patterns(i, octet) {
            if c.pattern_at(i, octet, k).len() == size {
                if one {
                    let later = self.set_at((octet + size) % 8);
                    return Ok(Some(later.cut_to(alloc, MOST_MARKS as u8 - size)?));
                }
                one = true;
            }
        }
        Ok(None)
    }

    /// The same for each number of marks; nothing where the part has few patterns there.
    fn behind_each(
        &self,
        alloc: Global,
        c: &Certificate,
        i: u16,
        octet: u8,
    ) -> Result<Vec<Option<PatternSet>>, NoMemory>
        requires made { length self.now.at.items ≡ 8 }
        requires octet { octet ≤ 7 }
        requires has { IsSome (claimed c.now i octet) }
        ensures { IfOk result (λ behind. AreBehind self.now.at.items octet behind.items) }
    {
        let mut behind = Vec::new(alloc);
        if c.patterns(i, octet) <= FEW {
            return Ok(behind);
        }
        for size in 0..MOST_MARKS as u8 + 1 {
            behind.push(self.behind_size(alloc, c, i, octet, size)?)?;
        }
        Ok(behind)
    }

    /// What makes the same behind so many marks as these patterns at their octet position: cut ones, where they are
    /// kept, and else these themselves.
    fn rests<'a>(&'a self, behind: &'a [Option<PatternSet>], octet: u8, size: u8) -> &'a PatternSet
        requires made { length self.now.at.items ≡ 8 }
        requires octet { octet ≤ 7 }
        requires size { size ≤ MOST_MARKS }
        requires behind { AreBehind self.now.at.items octet behind.now }
        ensures { MakesSame self.now.at.items octet size result.now }
    {
        let place = size as usize;
        if place >= behind.len() {
            return self.set_at((octet + size) % 8);
        }
        match &behind[place] {
            Some(cut) => cut,
            None => self.set_at((octet + size) % 8),
        }
    }

    /// Adds the patterns that one pattern makes at an octet position with these behind it.
    fn add_made(
        &self,
        alloc: Global,
        patterns: &mut PatternSet,
        first: Pattern,
        octet: u8,
        behind: &[Option<PatternSet>],
    ) -> Result<(), NoMemory>
        requires made { length self.now.at.items ≡ 8 }
        requires octet { octet ≤ 7 }
        requires behind { AreBehind self.now.at.items octet behind.now }
        ensures { OnOk result ((p : PatternV) → Contains patterns.new p ↔ (Contains patterns.old p ⊎ FirstMakes (MadeAt self.now.at.items) first octet p)) }
    {
        if !first.whole() {
            return patterns.add(first);
        }
        let own = number_of(first);
        let rests = self.rests(behind, octet, first.len());
        let numbers = rests.numbers(alloc)?;
        for rest in numbers.as_slice() {
            patterns.add_number(joined(first, own, *rest))?;
        }
        Ok(())
    }

    /// Adds the patterns that those of part `i` make at an octet position with these behind them.
    fn add_each(
        &self,
        alloc: Global,
        patterns: &mut PatternSet,
        c: &Certificate,
        i: u16,
        octet: u8,
        behind: &[Option<PatternSet>],
    ) -> Result<(), NoMemory>
        requires made { length self.now.at.items ≡ 8 }
        requires octet { octet ≤ 7 }
        requires has { IsSome (claimed c.now i octet) }
        requires behind { AreBehind self.now.at.items octet behind.now }
        requires none { patterns.old ≡ [] }
        ensures { OnOk result ((p : PatternV) → Contains patterns.new p ↔ PartMakes c.now (MadeAt self.now.at.items) i octet p) }
    {
        for k in 0..c.patterns(i, octet) {
            self.add_made(alloc, patterns, c.pattern_at(i, octet, k), octet, behind)?;
        }
        Ok(())
    }

    /// Those from one octet position on, with part `i` before these parts.
    fn behind_at(
        &self,
        alloc: Global,
        c: &Certificate,
        i: u16,
        octet: u8,
    ) -> Result<PatternSet, NoMemory>
        requires made { length self.now.at.items ≡ 8 }
        requires node { i < length c.now }
        requires octet { octet ≤ 7 }
        ensures { IfOk result (λ patterns. (p : PatternV) → Contains patterns p ↔ PartMakes c.now (MadeAt self.now.at.items) i octet p) }
    {
        let mut patterns = PatternSet::new(alloc);
        if !c.has(i, octet) {
            return Ok(patterns);
        }
        let behind = self.behind_each(alloc, c, i, octet)?;
        self.add_each(alloc, &mut patterns, c, i, octet, behind.as_slice())?;
        Ok(patterns)
    }

    /// Those with part `i` before these parts.
    fn behind(&self, alloc: Global, c: &Certificate, i: u16) -> Result<Made, NoMemory>
        requires made { length self.now.at.items ≡ 8 }
        requires node { i < length c.now }
        ensures { IfOk result (λ made. AreMade made.at.items (PartMakes c.now (MadeAt self.now.at.items) i)) }
    {
        let mut at = Vec::new(alloc);
        for octet in 0..8 {
            at.push(self.behind_at(alloc, c, i, octet)?)?;
        }
        Ok(Made { at })
    }

    /// Whether each of the patterns is among the other ones; else it may be that the answer is no though they are.
    fn is_within(&self, alloc: Global, other: &Made) -> Result<bool, NoMemory>
        requires made { length self.now.at.items ≡ 8 }
        requires other { length other.now.at.items ≡ 8 }
        ensures { IfOk result (λ within. IsTrue within → (o : ℕ) (p : PatternV) → MadeAt self.now.at.items o p → MadeAt other.now.at.items o p) }
    {
        for octet in 0..8 {
            let own = self.set_at(octet);
            let others = other.set_at(octet);
            let within = own.is_within(alloc, others)?;
            if !within {
                return Ok(false);
            }
        }
        Ok(true)
    }

    /// Whether they are the other ones; else it may be that the answer is no though they are.
    fn is_same(&self, alloc: Global, other: &Made) -> Result<bool, NoMemory>
        requires made { length self.now.at.items ≡ 8 }
        requires other { length other.now.at.items ≡ 8 }
        ensures { IfOk result (λ same. IsTrue same → (o : ℕ) (p : PatternV) → MadeAt self.now.at.items o p ↔ MadeAt other.now.at.items o p) }
    {
        let within = self.is_within(alloc, other)?;
        if !within {
            return Ok(false);
        }
        let back = other.is_within(alloc, self)?;
        Ok(back)
    }
}

/// The patterns of parts one after another.
pub(crate) fn made_of_parts(alloc: Global, c: &Certificate, parts: &Parts) -> Result<Made, NoMemory>
    requires { PartsWithin parts.now (length c.now) }
    ensures { IfOk result (λ made. AreMade made.at.items (PartsPatterns c.now parts.now)) }
{
    let mut made = Made::none(alloc)?;
    for at in (0..parts.len()).rev() {
        let more = made.behind(alloc, c, parts.get(at))?;
        made = more;
    }
    Ok(made)
}

/// The patterns of `n` times part `i`.
pub(crate) fn made_of_times(
    alloc: Global,
    c: &Certificate,
    i: u16,
    n: u32,
) -> Result<Made, NoMemory>
    requires { i < length c.now }
    ensures { IfOk result (λ made. AreMade made.at.items (TimesPatterns c.now n i)) }
{
    let mut made = Made::none(alloc)?;
    for turn in 0..n {
        let more = made.behind(alloc, c, i)?;
        let same = more.is_same(alloc, &made)?;
        if same {
            return Ok(made);
        }
        made = more;
    }
    Ok(made)
}
