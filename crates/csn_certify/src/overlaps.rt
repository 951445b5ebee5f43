//! Overlaps of the keys of two alternatives.

ghost use Rattle.std.specs.Prelude.{◌≡◌, ℕ, ◌+◌, ◌<◌, ◌≤◌, ◌↔◌, [], ◌∷◌, slice_get, Some, length, None, IsTrue, IfOk};
ghost use Rattle.csn_desc.specs.declared.node.Node.TheVariants.{Choice};
ghost use Rattle.csn_look.specs.KeyMarks.{IsWord, KeysAre};
ghost use Rattle.csn_look.specs.Reached.{Reached};
ghost use Rattle.csn_certify.specs.Conflicts.{rank_octets, rank_overlap};
ghost use Rattle.csn_certify.specs.Search.{IsSurveyed, IsFirstUnder, IsLeastFrom};
ghost use Rattle.csn_certify.specs.Overlaps.{MeetsAt, IsPart, HasKeyFrom, Overlaps, IsFirstBegun};

use crate::alternatives::Alternatives;
use crate::conflict::Conflict;
use crate::meets::{tables_meet, touches};
use crate::search::{Found, Search};
use csn_bits::NoMemory;
use csn_look::{KeySet, KeyTable, Word};
use std::alloc::Global;

impl Search<'_> {
    /// The first overlap of two alternatives at an octet position, where there is no conflict at those before it. Where
    /// the keys are those of one of these, none is looked for.
    pub fn overlap(&self, alloc: Global, choice: &Alternatives, octet: u8) -> Found
        requires known { IsSurveyed self.now.desc.now self.now.look.now self.now.reach.now }
        requires choice { slice_get self.now.desc.now.nodes choice.now.node ≡ Some (Choice choice.now.parts.now) }
        requires octet { octet ≤ 7 }
        requires reached { Reached self.now.desc.now choice.now.node octet }
        requires before { (other : ℕ) → other < octet → IsFirstUnder self.now.desc.now (choice.now.node ∷ rank_octets ∷ other ∷ []) None }
        ensures { IfOk result (IsFirstUnder self.now.desc.now (choice.now.node ∷ rank_octets ∷ octet ∷ rank_overlap ∷ [])) }
    {
        if self.same_before(choice.node, choice.parts, octet).is_some() {
            return Ok(None);
        }
        match self.first_overlapping(alloc, choice, octet)? {
            Some(i) => self.overlap_of(alloc, choice, octet, i),
            None => Ok(None),
        }
    }

    /// The first alternative that has a key which overlaps with one of a later alternative. These are gone
    /// through once, the last one first, with one table of the keys of the later ones.
    fn first_overlapping(
        &self,
        alloc: Global,
        choice: &Alternatives,
        octet: u8,
    ) -> Result<Option<u16>, NoMemory>
        requires known { IsSurveyed self.now.desc.now self.now.look.now self.now.reach.now }
        requires choice { slice_get self.now.desc.now.nodes choice.now.node ≡ Some (Choice choice.now.parts.now) }
        requires octet { octet ≤ 7 }
        ensures { IfOk result (IsLeastFrom 0 (Overlaps self.now.desc.now octet choice.now.parts.now)) }
    {
        let mut first = None;
        let mut later = KeyTable::new(alloc)?;
        for i in (0..choice.parts.len()).rev() {
            let meets = self.meets_later(alloc, choice, octet, i, &mut later)?;
            if meets {
                first = Some(i);
            }
        }
        Ok(first)
    }

    /// Whether an alternative has a key that overlaps with one of a later alternative, whose keys are in a
    /// table. Its own keys are added to these.
    fn meets_later(
        &self,
        alloc: Global,
        choice: &Alternatives,
        octet: u8,
        i: u16,
        later: &mut KeyTable,
    ) -> Result<bool, NoMemory>
        requires known { IsSurveyed self.now.desc.now self.now.look.now self.now.reach.now }
        requires choice { slice_get self.now.desc.now.nodes choice.now.node ≡ Some (Choice choice.now.parts.now) }
        requires octet { octet ≤ 7 }
        requires within { i < length choice.now.parts.now }
        requires later { KeysAre later.old (HasKeyFrom self.now.desc.now octet choice.now.parts.now (i + 1)) }
        ensures later { IfOk result (λ meets. KeysAre later.new (HasKeyFrom self.now.desc.now octet choice.now.parts.now i)) }
        ensures meets { IfOk result (λ meets. IsTrue meets ↔ Overlaps self.now.desc.now octet choice.now.parts.now i) }
    {
        let part = choice.parts.get(i);
        if self.is_null(part) {
            return Ok(false);
        }
        let table = self.look.key_table(part, octet);
        let meets = tables_meet(later, table, &Word::new());
        later.add_all(alloc, table)?;
        Ok(meets)
    }

    /// The first overlap of an alternative with a later one.
    fn overlap_of(&self, alloc: Global, choice: &Alternatives, octet: u8, i: u16) -> Found
        requires known { IsSurveyed self.now.desc.now self.now.look.now self.now.reach.now }
        requires choice { slice_get self.now.desc.now.nodes choice.now.node ≡ Some (Choice choice.now.parts.now) }
        requires octet { octet ≤ 7 }
        requires reached { Reached self.now.desc.now choice.now.node octet }
        requires part { (p : ℕ) × IsPart self.now.desc.now octet choice.now.parts.now i p }
        ensures { IfOk result (IsFirstUnder self.now.desc.now (choice.now.node ∷ rank_octets ∷ octet ∷ rank_overlap ∷ i ∷ [])) }
    {
        let count = choice.parts.len();
        for j in i + 1..count {
            if let Some(conflict) = self.overlap_with(alloc, choice, octet, i, j)? {
                return Ok(Some(conflict));
            }
        }
        Ok(None)
    }

    /// The first overlap of two alternatives. Their keys are listed only where there is one.
    fn overlap_with(&self, alloc: Global, choice: &Alternatives, octet: u8, i: u16, j: u16) -> Found
        requires known { IsSurveyed self.now.desc.now self.now.look.now self.now.reach.now }
        requires choice { slice_get self.now.desc.now.nodes choice.now.node ≡ Some (Choice choice.now.parts.now) }
        requires octet { octet ≤ 7 }
        requires reached { Reached self.now.desc.now choice.now.node octet }
        requires order { i < j }
        requires within { j < length choice.now.parts.now }
        requires part { (p : ℕ) × IsPart self.now.desc.now octet choice.now.parts.now i p }
        ensures { IfOk result (IsFirstUnder self.now.desc.now (choice.now.node ∷ rank_octets ∷ octet ∷ rank_overlap ∷ i ∷ j ∷ [])) }
    {
        let first = choice.parts.get(i);
        let second = choice.parts.get(j);
        if self.is_null(second) {
            return Ok(None);
        }
        let own = self.look.key_table(first, octet);
        let table = self.look.key_table(second, octet);
        if !tables_meet(own, table, &Word::new()) {
            return Ok(None);
        }
        let keys = self.look.keys(alloc, first, octet)?;
        let Some(at) = first_meeting(table, &keys) else {
            return Ok(None);
        };
        let word_i = keys.get(at).word.copy();
        let Some(word_j) = self.first_word(alloc, second, octet, &word_i)? else {
            return Ok(None);
        };
        Ok(Some(Conflict::Overlap {
            node: choice.node,
            octet,
            i,
            j,
            word_i,
            word_j,
        }))
    }

    /// The first word of the keys of a part that the word begins or that begins the word.
    fn first_word(
        &self,
        alloc: Global,
        part: u16,
        octet: u8,
        word: &Word,
    ) -> Result<Option<Word>, NoMemory>
        requires known { IsSurveyed self.now.desc.now self.now.look.now self.now.reach.now }
        requires part { part < length self.now.desc.now.nodes }
        requires octet { octet ≤ 7 }
        requires word { IsWord word.now }
        ensures { IfOk result (IsFirstBegun self.now.desc.now octet part word.now) }
    {
        let mut only = KeyTable::new(alloc)?;
        only.add(alloc, word, true)?;
        let keys = self.look.keys(alloc, part, octet)?;
        match first_meeting(&only, &keys) {
            Some(at) => Ok(Some(keys.get(at).word.copy())),
            None => Ok(None),
        }
    }
}

/// The place of the first key in a list that begins with a key of the table or begins one.
fn first_meeting(table: &KeyTable, keys: &KeySet) -> Option<u32>
    ensures { IsLeastFrom 0 (MeetsAt table.now keys.now) result }
{
    for at in 0..keys.len() {
        if touches(table, &keys.get(at).word) {
            return Some(at);
        }
    }
    None
}
