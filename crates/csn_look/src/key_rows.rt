//! The tables of keys of nodes: for each node a row of eight numbers of tables, for the octet positions from 0 to 7.

ghost use Rattle.std.specs.Prelude.{◌≡◌, ℕ, ◌+◌, ◌%◌, ◌<◌, ◌≤◌, List, [], true, length, take, slice_get, slice_index, slice_index_or, IsTrue, IfOk};
ghost use Rattle.csn_bits.specs.Octets.{IsBits};
ghost use Rattle.csn_desc.specs.Nodes.{DescV, parts_of};
ghost use Rattle.csn_desc.specs.Spelled.{spelled};
ghost use Rattle.csn_look.specs.Keys.{Cut, InKeys, NodeKeys, PartsKeys, TimesKeys};
ghost use Rattle.csn_look.specs.KeyMarks.{KeysAre};
ghost use Rattle.csn_look.specs.KeyRows.{table_of, HasTable, HasRow, IsMore, Makes, AreTables, IsSameRow, RowAfter};
ghost use Rattle.csn_look.specs.KeyRows.{IsSpareKey, IsRowed, AreRowed, AreAlike, HasRows};

use crate::key_table::KeyTable;
use crate::known::bit_of_symbol;
use crate::table_maker::TableMaker;
use crate::word::{MOST_WORD, Word};
use csn_bits::NoMemory;
use csn_desc::{Count, Desc, Node, Parts, Reading, Run, Symbol};
use std::alloc::Global;

/// The rows of all nodes of a description. Its nodes are gone through once, the last one first.
pub(crate) fn rows_of(
    alloc: Global,
    desc: &Desc,
    tables: &mut TableMaker,
) -> Result<Vec<[usize; 8]>, NoMemory>
    ensures { IfOk result (λ rows. HasRows desc.now tables.new rows.items) }
{
    let count = desc.len();
    let mut rows = no_rows(alloc, count)?;
    for i in (0..count).rev() {
        let rowed = Rowed {
            alloc,
            desc,
            rows: rows.as_slice(),
        };
        let row = rowed.node(tables, desc.node(i))?;
        rows[i as usize] = row;
    }
    Ok(rows)
}

/// As many rows as there are nodes.
fn no_rows(alloc: Global, count: u16) -> Result<Vec<[usize; 8]>, NoMemory>
    ensures { IfOk result (λ rows. length rows.items ≡ count) }
{
    match vec![in alloc; [0; 8]; count as usize] {
        Ok(rows) => Ok(rows),
        Err(_) => Err(NoMemory),
    }
}

/// A description and the rows of those of its nodes that have theirs.
#[derive(Clone, Copy)]
struct Rowed<'a> {
    alloc: Global,
    desc: &'a Desc,
    rows: &'a [[usize; 8]],
}

impl Rowed<'_> {
    /// The row of a node whose parts have theirs.
    fn node(&self, tables: &mut TableMaker, node: &Node) -> Result<[usize; 8], NoMemory>
        requires { AreRowed self.now.desc.now tables.old self.now.rows.now (parts_of node.now) }
        ensures { IfOk result (λ row. Makes tables.old tables.new row (NodeKeys self.now.desc.now MOST_WORD node.now)) }
    {
        match node {
            Node::Lits(run) => literal_row(self.alloc, tables, run),
            Node::Spare(symbol) => spare_row(
                self.alloc,
                tables,
                self.desc.reading(),
                *symbol,
                true,
            ),
            Node::Pad => spare_row(self.alloc, tables, self.desc.reading(), Symbol::Low, false),
            Node::Null => empty_row(self.alloc, tables, true),
            Node::Field { unit, count } => field_row(self.alloc, tables, *unit, *count),
            Node::Rest => empty_row(self.alloc, tables, false),
            Node::Seq(parts) => self.sequence(tables, parts),
            Node::Choice(parts) => self.choice(tables, parts),
            Node::Times { count, part } => self.times(tables, *count, *part),
            Node::Many(_) => empty_row(self.alloc, tables, false),
            Node::Trunc(_) => empty_row(self.alloc, tables, false),
            Node::Window {
                unit: _,
                count: _,
                part: _,
            } => empty_row(self.alloc, tables, false),
            Node::Named { label: _, part } => Ok(self.of(tables, *part)),
        }
    }

    /// The row of the node with this number.
    fn of(&self, tables: &TableMaker, i: u16) -> [usize; 8]
        requires { IsRowed self.now.desc.now tables.now self.now.rows.now i }
        ensures { HasRow tables.now result (InKeys self.now.desc.now MOST_WORD i) }
    {
        self.rows[i as usize]
    }

    /// The row of parts one after another.
    fn sequence(&self, tables: &mut TableMaker, parts: &Parts) -> Result<[usize; 8], NoMemory>
        requires { AreRowed self.now.desc.now tables.old self.now.rows.now parts.now }
        ensures { IfOk result (λ row. Makes tables.old tables.new row (PartsKeys self.now.desc.now MOST_WORD parts.now)) }
    {
        let mut row = empty_row(self.alloc, tables, true)?;
        for at in (0..parts.len()).rev() {
            let first = self.of(tables, parts.get(at));
            row = row_after(self.alloc, tables, &first, &row)?;
        }
        Ok(row)
    }

    /// The row of one of some parts.
    fn choice(&self, tables: &mut TableMaker, parts: &Parts) -> Result<[usize; 8], NoMemory>
        requires { AreRowed self.now.desc.now tables.old self.now.rows.now parts.now }
        ensures { IfOk result (λ row. Makes tables.old tables.new row (NodeKeys self.now.desc.now MOST_WORD (Node.Choice parts.now))) }
    {
        if self.are_same(tables, parts) {
            let table = self.union(tables, parts, 0)?;
            return same_row(self.alloc, tables, &table);
        }
        let mut row = [0; 8];
        for octet in 0..8 {
            let table = self.union(tables, parts, octet)?;
            row[octet] = tables.keep(self.alloc, &table)?;
        }
        Ok(row)
    }

    /// Whether each of the parts has one table at all octet positions.
    fn are_same(&self, tables: &TableMaker, parts: &Parts) -> bool
        requires { AreRowed self.now.desc.now tables.now self.now.rows.now parts.now }
        ensures { IsTrue result → AreAlike self.now.desc.now parts.now }
    {
        for at in 0..parts.len() {
            if !is_same(&self.of(tables, parts.get(at))) {
                return false;
            }
        }
        true
    }

    /// The keys of one of some parts at an octet position.
    fn union(&self, tables: &TableMaker, parts: &Parts, octet: usize) -> Result<KeyTable, NoMemory>
        requires octet { octet ≤ 7 }
        requires rowed { AreRowed self.now.desc.now tables.now self.now.rows.now parts.now }
        ensures { IfOk result (λ table. KeysAre table (NodeKeys self.now.desc.now MOST_WORD (Node.Choice parts.now) octet)) }
    {
        let mut table = KeyTable::new(self.alloc)?;
        for at in 0..parts.len() {
            let row = self.of(tables, parts.get(at));
            table.add_all(self.alloc, tables.get(row[octet]))?;
        }
        Ok(table)
    }

    /// The row of a part as many times as counted.
    fn times(
        &self,
        tables: &mut TableMaker,
        count: Count,
        part: u16,
    ) -> Result<[usize; 8], NoMemory>
        requires { IsRowed self.now.desc.now tables.old self.now.rows.now part }
        ensures { IfOk result (λ row. Makes tables.old tables.new row (NodeKeys self.now.desc.now MOST_WORD (Node.Times count part))) }
    {
        match count {
            Count::Fixed(n) => {
                let once = self.of(tables, part);
                repeated_row(self.alloc, tables, &once, n)
            }
            Count::Counted {
                m: _,
                field: _,
                c: _,
            } => empty_row(self.alloc, tables, false),
        }
    }
}

/// The row of a part n times. Where one time more gives the same tables, every further time does.
fn repeated_row(
    alloc: Global,
    tables: &mut TableMaker,
    once: &[usize; 8],
    n: u32,
) -> Result<[usize; 8], NoMemory>
    requires { AreTables tables.old once.now }
    ensures { (d : DescV) (i : ℕ) → HasRow tables.old once.now (InKeys d MOST_WORD i)
        → IfOk result (λ row. Makes tables.old tables.new row (TimesKeys d MOST_WORD n i)) }
{
    let mut row = empty_row(alloc, tables, true)?;
    for done in 0..n {
        let more = row_after(alloc, tables, once, &row)?;
        if more == row {
            return Ok(row);
        }
        row = more;
    }
    Ok(row)
}

/// The row of a first part and of what comes after it.
fn row_after(
    alloc: Global,
    tables: &mut TableMaker,
    first: &[usize; 8],
    rest: &[usize; 8],
) -> Result<[usize; 8], NoMemory>
    requires first { AreTables tables.old first.now }
    requires rest { AreTables tables.old rest.now }
    ensures { IfOk result (λ row. Makes tables.old tables.new row (RowAfter tables.old first.now rest.now)) }
{
    if is_same(first) && is_same(rest) {
        let at = tables.keep_after(alloc, first[0], rest)?;
        return Ok(same(at));
    }
    let mut row = [0; 8];
    for octet in 0..8 {
        row[octet] = tables.keep_after(alloc, first[octet], &turned(rest, octet))?;
    }
    Ok(row)
}

/// Whether the row has one table at all octet positions.
fn is_same(row: &[usize; 8]) -> bool
    ensures { IsTrue result → (o : ℕ) → o ≤ 7 → slice_index row.now o ≡ slice_index row.now 0 }
{
    for octet in 1..8 {
        if row[octet] != row[0] {
            return false;
        }
    }
    true
}

/// The row as it is seen from an octet position on.
fn turned(row: &[usize; 8], octet: usize) -> [usize; 8]
    requires { octet ≤ 7 }
    ensures { (size : ℕ) → size < 8 → slice_index result size ≡ slice_index row.now ((octet + size) % 8) }
{
    let mut turned = [0; 8];
    for size in 0..8 {
        turned[size] = row[(octet + size) % 8];
    }
    turned
}

/// The row of a literal word.
fn literal_row(alloc: Global, tables: &mut TableMaker, run: &Run) -> Result<[usize; 8], NoMemory>
    ensures { (d : DescV) → IfOk result (λ row. Makes tables.old tables.new row (NodeKeys d MOST_WORD (Node.Lits run.now))) }
{
    let whole = run.len() <= MOST_WORD as u32;
    let mut row = [0; 8];
    for octet in 0..8u8 {
        row[octet as usize] = tables.keep_key(alloc, &literal_word(run, octet), whole)?;
    }
    Ok(row)
}

/// The first bits of a literal word at an octet position, as many as are looked at.
fn literal_word(run: &Run, octet: u8) -> Word
    requires { octet ≤ 7 }
    ensures { result ≡ take MOST_WORD (spelled run.now octet) }
{
    let mut word = Word::new();
    let most = MOST_WORD as u32;
    let size = if run.len() < most { run.len() } else { most };
    for at in 0..size {
        let place = (octet as u32 + at) % 8;
        word.push(bit_of_symbol(*run.get(at), place as u8));
    }
    word
}

/// The row of a spare bit.
fn spare_row(
    alloc: Global,
    tables: &mut TableMaker,
    reading: Reading,
    symbol: Symbol,
    whole: bool,
) -> Result<[usize; 8], NoMemory>
    ensures { IfOk result (λ row. Makes tables.old tables.new row (IsSpareKey reading symbol whole)) }
{
    match reading {
        Reading::Received => {
            let at = tables.keep_words(alloc, 1, whole)?;
            Ok(same(at))
        }
        Reading::Sent => sent_row(alloc, tables, symbol, whole),
    }
}

/// The row of a spare bit that is sent.
fn sent_row(
    alloc: Global,
    tables: &mut TableMaker,
    symbol: Symbol,
    whole: bool,
) -> Result<[usize; 8], NoMemory>
    ensures { IfOk result (λ row. Makes tables.old tables.new row (IsSpareKey Reading.Sent symbol whole)) }
{
    let mut row = [0; 8];
    for octet in 0..8u8 {
        let word = Word::new().with(bit_of_symbol(symbol, octet));
        row[octet as usize] = tables.keep_key(alloc, &word, whole)?;
    }
    Ok(row)
}

/// The row of a field.
fn field_row(
    alloc: Global,
    tables: &mut TableMaker,
    unit: u8,
    count: Count,
) -> Result<[usize; 8], NoMemory>
    ensures { (d : DescV) → IfOk result (λ row. Makes tables.old tables.new row (NodeKeys d MOST_WORD (Node.Field unit count))) }
{
    match count {
        Count::Fixed(n) => {
            let at = field_table(alloc, tables, unit as u64 * n as u64)?;
            Ok(same(at))
        }
        Count::Counted {
            m: _,
            field: _,
            c: _,
        } => empty_row(alloc, tables, false),
    }
}

/// The table of a field of so many bits.
fn field_table(alloc: Global, tables: &mut TableMaker, width: u64) -> Result<usize, NoMemory>
    ensures kept { IfOk result (λ at. HasTable tables.new at (λ word mark. (w : List ℕ) × (length w ≡ width) × IsBits w × Cut MOST_WORD w true word mark)) }
    ensures more { IsMore tables.old tables.new }
{
    if width > MOST_WORD as u64 {
        tables.keep_words(alloc, MOST_WORD, false)
    } else {
        tables.keep_words(alloc, width as usize, true)
    }
}

/// The row of the empty word alone.
fn empty_row(alloc: Global, tables: &mut TableMaker, whole: bool) -> Result<[usize; 8], NoMemory>
    ensures { IfOk result (λ row. Makes tables.old tables.new row (λ o word mark. (word ≡ []) × (mark ≡ whole))) }
{
    let at = tables.keep_key(alloc, &Word::new(), whole)?;
    Ok(same(at))
}

/// One table for each octet position.
fn same_row(
    alloc: Global,
    tables: &mut TableMaker,
    table: &KeyTable,
) -> Result<[usize; 8], NoMemory>
    ensures { IfOk result (λ row. IsSameRow tables.old tables.new row table.now) }
{
    let at = tables.keep(alloc, table)?;
    Ok(same(at))
}

/// The number for each octet position.
fn same(at: usize) -> [usize; 8]
    ensures eight { length result ≡ 8 }
    ensures same { (o : ℕ) → o ≤ 7 → slice_index result o ≡ at }
{
    [at; 8]
}
