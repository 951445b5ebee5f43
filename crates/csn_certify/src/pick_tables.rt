//! The tables of all choices of a description.

ghost use Rattle.std.specs.Prelude.{◌≡◌, ℕ, List, ◌+◌, ◌*◌, ◌<◌, ◌≤◌, ◌++◌, [], ◌∷◌, length, slice_get, slice_set, Some, IfOk, IfSome};
ghost use Rattle.csn_desc.specs.declared.node.Node.TheVariants.{Choice};
ghost use Rattle.csn_look.specs.NodeSets.{IsLookOf};
ghost use Rattle.csn_look.specs.LookKeys.{IsKeysOf};
ghost use Rattle.csn_certify.specs.PickTables.{PickTableV, table_of, HasEntries, IsTableOf, HasNumber, HaveTables, ArePickTables};
ghost use Rattle.csn_look.specs.ReachV.{IsReachOf};
ghost use Rattle.csn_look.specs.FollowV.{IsFollowOf};
ghost use Rattle.csn_look.specs.Reached.{Reached};
ghost use Rattle.csn_certify.specs.Conflicts.{Certified};
ghost use Rattle.csn_certify.specs.Search.{IsSurveyed};

use crate::chooser::Chooser;
use crate::pick_blocks::Blocks;
use crate::pick_table::{Filled, KeptTable, PickTable, first_of};
use crate::search::Search;
use csn_bits::NoMemory;
use csn_desc::{Desc, Node, Parts};
use csn_look::{Look, MOST_WORD, Reach};
use std::alloc::Global;
use std::marker::Model;

/// The tables of the choices of a description at the octet positions at which these are reached. A contract sees
/// the tables and their numbers, and `ArePickTables` says that they are those of a description.
#[derive(Drop)]
pub(crate) struct PickTables {
    blocks: Blocks,
    tables: Vec<KeptTable>,
    // for each node, and each octet position from 0 to 7, which table it has
    numbers: Vec<u32>,
}

impl Model for PickTables {
    ghost use Rattle.std.specs.Prelude.{map};
    ghost use Rattle.csn_certify.specs.PickTables.{PickTablesV, pick_tables_code, table_in, AreWithin};

    ghost Value = { PickTablesV };

    ghost coded = { pick_tables_code };

    ghost view = { λ p. record { tables = map (table_in p.blocks) p.tables.items; numbers = p.numbers.items } };

    ghost invariant = { λ p. AreWithin p.blocks p.tables.items };
}

impl PickTables {
    /// The tables of a description.
    pub fn new(
        alloc: Global,
        desc: &Desc,
        look: &Look,
        reach: &Reach,
    ) -> Result<PickTables, NoMemory>
        requires sets { IsLookOf desc.now look.now.sets }
        requires keys { IsKeysOf desc.now look.now }
        requires reached { IsReachOf desc.now reach.now.reached }
        requires follow { IsFollowOf desc.now reach.now.follow }
        requires certified { Certified desc.now MOST_WORD }
        ensures { IfOk result (ArePickTables desc.now) }
    {
        let known = Search { desc, look, reach };
        let count = desc.len();
        let mut picks = PickTables::empty(alloc, count)?;
        for node in 0..count {
            if let Node::Choice(parts) = desc.node(node) {
                picks.add_choice(alloc, &known, node, parts)?;
            }
        }
        Ok(picks)
    }

    /// No tables yet, for so many nodes.
    fn empty(alloc: Global, count: u16) -> Result<PickTables, NoMemory>
        ensures { IfOk result (λ picks. length picks.numbers ≡ 8 * count) }
    {
        let numbers = no_numbers(alloc, count)?;
        Ok(PickTables {
            blocks: Blocks::new(alloc),
            tables: Vec::new(alloc),
            numbers,
        })
    }

    /// The table of a choice at an octet position.
    pub fn table(&self, node: u16, octet: u8) -> PickTable<'_>
        requires octet { octet ≤ 7 }
        requires within { 8 * node + octet < length self.now.numbers }
        requires there { (t : PickTableV) × (table_of self.now node octet ≡ Some t) }
        ensures { table_of self.now node octet ≡ Some result }
    {
        self.of(self.numbers.as_slice()[place(node, octet)] as usize)
    }

    /// The table with this number.
    fn of(&self, number: usize) -> PickTable<'_>
        requires { number < length self.now.tables }
        ensures { slice_get self.now.tables number ≡ Some result }
    {
        PickTable::new(&self.tables[number], &self.blocks)
    }

    /// Adds the tables of a choice.
    fn add_choice(
        &mut self,
        alloc: Global,
        known: &Search,
        node: u16,
        parts: &Parts,
    ) -> Result<(), NoMemory>
        requires known { IsSurveyed known.now.desc.now known.now.look.now known.now.reach.now }
        requires choice { slice_get known.now.desc.now.nodes node ≡ Some (Choice parts.now) }
        requires certified { Certified known.now.desc.now MOST_WORD }
        requires before { HaveTables known.now.desc.now (8 * node) self.old }
        ensures { IfOk result (λ done. HaveTables known.now.desc.now (8 * (node + 1)) self.new) }
    {
        for octet in 0..8 {
            if known.reach.reached(node).has(octet) {
                let number = self.number(alloc, known, node, parts, octet)?;
                self.put(place(node, octet), number);
            }
        }
        Ok(())
    }

    /// The number of the table of a choice at an octet position: that of an earlier octet position, where the
    /// alternatives have the same keys there, and else that of a new table.
    fn number(
        &mut self,
        alloc: Global,
        known: &Search,
        node: u16,
        parts: &Parts,
        octet: u8,
    ) -> Result<u32, NoMemory>
        requires known { IsSurveyed known.now.desc.now known.now.look.now known.now.reach.now }
        requires choice { slice_get known.now.desc.now.nodes node ≡ Some (Choice parts.now) }
        requires octet { octet ≤ 7 }
        requires reached { Reached known.now.desc.now node octet }
        requires certified { Certified known.now.desc.now MOST_WORD }
        requires before { HaveTables known.now.desc.now (8 * node + octet) self.old }
        ensures number { IfOk result (HasNumber known.now.desc.now parts.now octet self.new.tables) }
        ensures numbers { self.new.numbers ≡ self.old.numbers }
        ensures more { (more : List PickTableV) × (self.new.tables ≡ self.old.tables ++ more) }
    {
        if let Some(number) = self.shared(known, node, parts, octet) {
            return Ok(number);
        }
        let chooser = Chooser {
            desc: known.desc,
            look: known.look,
            parts,
            octet,
        };
        self.keep(alloc, chooser.table(alloc)?)
    }

    /// The number of the table of a choice at an earlier octet position, where the alternatives have the same keys.
    fn shared(&self, known: &Search, node: u16, parts: &Parts, octet: u8) -> Option<u32>
        requires known { IsSurveyed known.now.desc.now known.now.look.now known.now.reach.now }
        requires choice { slice_get known.now.desc.now.nodes node ≡ Some (Choice parts.now) }
        requires octet { octet ≤ 7 }
        requires before { HaveTables known.now.desc.now (8 * node + octet) self.now }
        ensures { IfSome result (HasNumber known.now.desc.now parts.now octet self.now.tables) }
    {
        let other = known.same_before(node, parts, octet)?;
        Some(self.numbers.as_slice()[place(node, other)])
    }

    /// Puts a number at a place.
    fn put(&mut self, place: usize, number: u32)
        requires { place < length self.old.numbers }
        ensures tables { self.new.tables ≡ self.old.tables }
        ensures numbers { self.new.numbers ≡ slice_set self.old.numbers place number }
    {
        self.numbers[place] = number;
    }

    /// Keeps the table of some entries, and answers its number.
    fn keep(&mut self, alloc: Global, filled: Filled) -> Result<u32, NoMemory>
        requires { HasEntries filled.width filled.entries.items }
        ensures number { IfOk result (λ number. (t : PickTableV) × (slice_get self.new.tables number ≡ Some t) × IsTableOf filled t) }
        ensures numbers { self.new.numbers ≡ self.old.numbers }
        ensures more { (more : List PickTableV) × (self.new.tables ≡ self.old.tables ++ more) }
    {
        let number = self.tables.len();
        if number > u32::MAX as usize {
            return Err(NoMemory);
        }
        let index = self.blocks.keep_all(alloc, filled.entries.as_slice())?;
        self.tables.push(KeptTable {
            none: filled.none,
            width: filled.width,
            first: first_of(filled.entries.as_slice()),
            index,
        })?;
        Ok(number as u32)
    }
}

/// Where the number of a node's table at an octet position stands.
fn place(node: u16, octet: u8) -> usize
    requires { octet ≤ 7 }
    ensures { result ≡ 8 * node + octet }
{
    8 * node as usize + octet as usize
}

/// As many numbers as there are nodes and octet positions.
fn no_numbers(alloc: Global, count: u16) -> Result<Vec<u32>, NoMemory>
    ensures { IfOk result (λ numbers. length numbers.items ≡ 8 * count) }
{
    match vec![in alloc; 0; 8 * count as usize] {
        Ok(numbers) => Ok(numbers),
        Err(_) => Err(NoMemory),
    }
}
