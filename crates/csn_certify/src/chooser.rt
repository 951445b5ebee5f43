//! Making the table of what look-ahead tells at a choice.

ghost use Rattle.std.specs.Prelude.{◌≡◌, ◌<◌, ◌≤◌, length, MatchOption, IfOk};
ghost use Rattle.csn_desc.specs.declared.node.Node.TheVariants.{Choice};
ghost use Rattle.csn_look.specs.LookKeys.{IsKeysOf};
ghost use Rattle.csn_look.specs.Steps.{HasPartsBelow};
ghost use Rattle.csn_certify.specs.Choosing.{IsNone};
ghost use Rattle.csn_certify.specs.PickTables.{AreEntries};
ghost use Rattle.csn_certify.specs.Filling.{AreApart, AreEmpty, HasMarks, AreDeep};

use crate::filling::{Filling, widened};
use crate::pick_table::{Entry, Filled};
use csn_bits::NoMemory;
use csn_desc::{Desc, Node, Parts};
use csn_look::{KeyTable, Look, MOST_WORD, Word};
use std::alloc::Global;

/// The alternatives of a choice, and what is known of their keys at an octet position.
#[derive(Clone, Copy)]
pub(crate) struct Chooser<'a> {
    pub desc: &'a Desc,
    pub look: &'a Look,
    pub parts: &'a Parts,
    pub octet: u8,
}

impl Chooser<'_> {
    /// The entries of the choice.
    pub fn table(&self, alloc: Global) -> Result<Filled, NoMemory>
        requires keys { IsKeysOf self.now.desc.now self.now.look.now }
        requires below { HasPartsBelow (Choice self.now.parts.now) (length self.now.desc.now.nodes) }
        requires octet { self.now.octet ≤ 7 }
        requires apart { AreApart self.now.desc.now self.now.parts.now self.now.octet }
        ensures { IfOk result (AreEntries self.now.desc.now self.now.parts.now self.now.octet) }
    {
        let width = self.width();
        let mut entries = no_entries(alloc, width)?;
        let mut none = None;
        for j in 0..self.parts.len() {
            match self.keys(j) {
                None => none = Some(j),
                Some(table) => {
                    let filling = Filling {
                        table,
                        alternative: j,
                        width,
                    };
                    filling.fill(entries.as_mut_slice(), &Word::new());
                }
            }
        }
        Ok(Filled {
            none,
            width,
            entries,
        })
    }

    /// How many bits are looked at.
    fn width(&self) -> u8
        requires keys { IsKeysOf self.now.desc.now self.now.look.now }
        requires below { HasPartsBelow (Choice self.now.parts.now) (length self.now.desc.now.nodes) }
        requires octet { self.now.octet ≤ 7 }
        ensures most { result ≤ MOST_WORD }
        ensures deep { AreDeep self.now.desc.now self.now.parts.now self.now.octet (length self.now.parts.now) result }
    {
        let mut width = 0;
        for j in 0..self.parts.len() {
            match self.keys(j) {
                None => {}
                Some(table) => width = widened(table, &Word::new(), width),
            }
        }
        width
    }

    /// The keys of an alternative; `None` where it takes no bits.
    fn keys(&self, j: u16) -> Option<&KeyTable>
        requires keys { IsKeysOf self.now.desc.now self.now.look.now }
        requires below { HasPartsBelow (Choice self.now.parts.now) (length self.now.desc.now.nodes) }
        requires octet { self.now.octet ≤ 7 }
        requires alternative { j < length self.now.parts.now }
        ensures { MatchOption result (IsNone self.now.desc.now self.now.parts.now j)
            (λ table. HasMarks self.now.desc.now self.now.parts.now self.now.octet j table.now) }
    {
        let part = self.parts.get(j);
        match self.desc.node(part) {
            Node::Null => None,
            _ => Some(self.look.key_table(part, self.octet)),
        }
    }
}

/// As many entries as there are words of at most so many bits, and one more.
fn no_entries(alloc: Global, width: u8) -> Result<Vec<Entry>, NoMemory>
    requires { width ≤ MOST_WORD }
    ensures { IfOk result (λ entries. AreEmpty width entries.items) }
{
    match vec![in alloc; Entry::Refuse; 2 << width] {
        Ok(entries) => Ok(entries),
        Err(_) => Err(NoMemory),
    }
}
