ghost use Rattle.std.specs.Prelude.{◌≡◌, ◌<◌, ◌≤◌, ◌↔◌, length, slice_get, Some, IsTrue, IfOk};
ghost use Rattle.csn_desc.specs.Nodes.{DescV};
ghost use Rattle.csn_look.specs.Nullable.{Nullable};
ghost use Rattle.csn_look.specs.Ends.{InEnds};
ghost use Rattle.csn_look.specs.Starts.{InFirst, StartsSign};
ghost use Rattle.csn_look.specs.Signs.{bit_of_sign};
ghost use Rattle.csn_look.specs.Keys.{IsFirm, InKeys};
ghost use Rattle.csn_look.specs.Told.{OctetsAre, SignsAre, FollowHas};
ghost use Rattle.csn_look.specs.NodeSets.{LengthsAre, IsLookOf};
ghost use Rattle.csn_look.specs.KeyMarks.{KeysAre};
ghost use Rattle.csn_look.specs.KeyLists.{IsKeyList};
ghost use Rattle.csn_look.specs.LookKeys.{table_at, IsKeysOf, ListsKeys};

use crate::follow::Follow;
use crate::key_rows::rows_of;
use crate::key_set::KeySet;
use crate::key_table::KeyTable;
use crate::key_tables::KeyTables;
use crate::known::Known;
use crate::node_sets::NodeSets;
use crate::octet_set::OctetSet;
use crate::symbol_set::{Sign, SymbolSet};
use crate::table_maker::TableMaker;
use crate::word::MOST_WORD;
use csn_bits::NoMemory;
use csn_desc::Desc;
use std::alloc::Global;
use std::marker::Model;

/// What look-ahead knows of the nodes of a description, in tables that are made once. A contract sees the
/// sets of each node, and `IsLookOf` says that they are those of a description; and it sees the tables of
/// keys, which `table_at` finds, and `IsKeysOf` says that they have the keys of a description.
#[derive(Drop)]
pub struct Look {
    sets: Vec<NodeSets>,
    tables: KeyTables,
    // for each node, and each octet position from 0 to 7, which table has its keys
    rows: Vec<[usize; 8]>,
}

impl Model for Look {
    ghost use Rattle.std.specs.Prelude.{length};
    ghost use Rattle.csn_look.specs.LookV.{LookV, AreRows, look_code};

    ghost Value = { LookV };

    ghost coded = { look_code };

    ghost view = { λ l. record { sets = l.sets.items; tables = l.tables; rows = l.rows.items } };

    ghost invariant = { λ l. AreRows (length l.tables) l.rows.items };
}

impl Look {
    /// What look-ahead knows of a description.
    pub fn new(alloc: Global, desc: &Desc) -> Result<Look, NoMemory>
        ensures sets { IfOk result (λ look. IsLookOf desc.now look.sets) }
        ensures keys { IfOk result (λ look. IsKeysOf desc.now look) }
    {
        let sets = sets_of(alloc, desc)?;
        let mut maker = TableMaker::new(alloc);
        let rows = rows_of(alloc, desc, &mut maker)?;
        let tables = maker.into_tables();
        Ok(Look { sets, tables, rows })
    }

    /// Whether a node may have no bits.
    pub fn nullable(&self, node: u16) -> bool
        requires { node < length self.now.sets }
        ensures { (d : DescV) → IsLookOf d self.now.sets → IsTrue result ↔ Nullable d node }
    {
        self.of(node).nullable
    }

    /// Whether a node has at least one bit, of which some is looked at in each of its keys.
    pub fn firm(&self, node: u16) -> bool
        requires { node < length self.now.sets }
        ensures { (d : DescV) → IsLookOf d self.now.sets → IsTrue result ↔ IsFirm d MOST_WORD node }
    {
        let sets = self.of(node);
        !(sets.nullable | sets.whole_empty | sets.cut_empty)
    }

    /// The octet positions at which bits of a node may end that begin at this one, which is from 0 to 7.
    pub fn ends(&self, node: u16, octet: u8) -> OctetSet
        requires node { node < length self.now.sets }
        requires octet { octet ≤ 7 }
        ensures { (d : DescV) → IsLookOf d self.now.sets → OctetsAre result (InEnds d node octet) }
    {
        self.of(node).lengths.turned(octet)
    }

    /// Whether a node may begin with this sign at an octet position, which is from 0 to 7.
    pub fn starts(&self, node: u16, octet: u8, sign: Sign) -> bool
        requires node { node < length self.now.sets }
        requires octet { octet ≤ 7 }
        ensures { (d : DescV) → IsLookOf d self.now.sets → IsTrue result ↔ StartsSign d node octet (bit_of_sign sign) }
    {
        let sets = self.of(node);
        match sign {
            Sign::Zero => sets.zero.has(octet),
            Sign::One => sets.one.has(octet),
            Sign::End => false,
        }
    }

    /// What may stand first at an octet position, from 0 to 7, at which a node is reached, where `follow`
    /// says what may stand after it.
    pub fn first(&self, node: u16, octet: u8, follow: &Follow) -> SymbolSet
        requires node { node < length self.now.sets }
        requires octet { octet ≤ 7 }
        ensures { (d : DescV) → IsLookOf d self.now.sets → SignsAre result (InFirst d (FollowHas follow.now) node octet) }
    {
        let sets = self.of(node);
        let behind = follow.at(octet).kept_if(sets.nullable);
        behind
            .with_if(Sign::Zero, sets.zero.has(octet))
            .with_if(Sign::One, sets.one.has(octet))
    }

    /// The keys of a node at an octet position, which is from 0 to 7, in the table that was made of them.
    pub fn key_table(&self, node: u16, octet: u8) -> &KeyTable
        requires node { node < length self.now.rows }
        requires octet { octet ≤ 7 }
        ensures table { result.now ≡ table_at self.now node octet }
        ensures keys { (d : DescV) → IsKeysOf d self.now → KeysAre result.now (InKeys d MOST_WORD node octet) }
    {
        let row = self.rows[node as usize];
        self.tables.get(row[octet as usize])
    }

    /// Whether one table has the keys of a node at two octet positions, which are from 0 to 7.
    pub fn same_keys(&self, node: u16, octet: u8, other: u8) -> bool
        requires node { node < length self.now.rows }
        requires octet { octet ≤ 7 }
        requires other { other ≤ 7 }
        ensures { IsTrue result → table_at self.now node octet ≡ table_at self.now node other }
    {
        let row = self.rows[node as usize];
        row[octet as usize] == row[other as usize]
    }

    /// The keys of a node at an octet position, which is from 0 to 7, in a list.
    pub fn keys(&self, alloc: Global, node: u16, octet: u8) -> Result<KeySet, NoMemory>
        requires node { node < length self.now.rows }
        requires octet { octet ≤ 7 }
        ensures table { IfOk result (λ keys. IsKeyList (table_at self.now node octet) keys) }
        ensures keys { (d : DescV) → IsKeysOf d self.now → IfOk result (λ keys. ListsKeys keys (InKeys d MOST_WORD node octet)) }
    {
        self.key_table(node, octet).keys(alloc)
    }

    /// How many bits a node may have, modulo 8.
    pub(crate) fn lengths(&self, node: u16) -> OctetSet
        requires { node < length self.now.sets }
        ensures { (d : DescV) → IsLookOf d self.now.sets → LengthsAre result (InEnds d node) }
    {
        self.of(node).lengths
    }

    /// The sets of a node.
    pub(crate) fn of(&self, node: u16) -> NodeSets
        requires { node < length self.now.sets }
        ensures { slice_get self.now.sets node ≡ Some result }
    {
        self.sets[node as usize]
    }
}

/// The sets of all nodes of a description. Its nodes are gone through once, the last one first.
fn sets_of(alloc: Global, desc: &Desc) -> Result<Vec<NodeSets>, NoMemory>
    ensures { IfOk result (λ sets. IsLookOf desc.now sets.items) }
{
    let count = desc.len();
    let mut sets = no_sets(alloc, count)?;
    for i in (0..count).rev() {
        let known = Known {
            desc,
            sets: sets.as_slice(),
        };
        let node = known.node(desc.node(i));
        sets[i as usize] = node;
    }
    Ok(sets)
}

/// As many sets of nothing as there are nodes.
fn no_sets(alloc: Global, count: u16) -> Result<Vec<NodeSets>, NoMemory>
    ensures { IfOk result (λ sets. length sets.items ≡ count) }
{
    match vec![in alloc; NodeSets::none(); count as usize] {
        Ok(sets) => Ok(sets),
        Err(_) => Err(NoMemory),
    }
}
