//! The marks of a table in blocks, of which equal ones are kept once: most tables have few keys, or many equal
//! blocks.

ghost use Rattle.std.specs.Prelude.{◌≡◌, ℕ, ◌+◌, ◌*◌, ◌%◌, ◌<◌, ◌≤◌, ◌⊎◌, [], ◌++◌, ◌||◌, bit_or, length, slice_index, IsTrue, IfOk};
ghost use Rattle.csn_look.specs.KeyMarks.{is_marked};
ghost use Rattle.csn_look.specs.Blocks.{four, laid_out, marks_of, AreWithin, IsKept, digest_of};

use crate::key_marks::MARK_WORDS;
use crate::key_table::KeyTable;
use csn_bits::NoMemory;
use std::alloc::Global;

/// How many numbers of 64 marks a block has.
pub(crate) const BLOCK: usize = 4;

/// How many blocks the marks of a table are.
pub(crate) const BLOCKS: usize = MARK_WORDS / BLOCK;

/// The block with this number.
pub(crate) fn block_of(blocks: &[u64], number: usize) -> [u64; BLOCK]
    requires { 4 * number + 4 ≤ length blocks.now }
    ensures { result ≡ four blocks.now number }
{
    let first = BLOCK * number;
    [
        blocks[first],
        blocks[first + 1],
        blocks[first + 2],
        blocks[first + 3],
    ]
}

/// The blocks of an index, one after another.
fn lay_out(alloc: Global, index: &[u8], blocks: &[u64]) -> Result<Vec<u64>, NoMemory>
    requires { AreWithin index.now blocks.now }
    ensures { IfOk result (λ marks. marks.items ≡ laid_out index.now blocks.now) }
{
    let mut marks = Vec::with_capacity(alloc, MARK_WORDS)?;
    for at in 0..index.len() {
        let block = block_of(blocks, index[at] as usize);
        marks.extend_from_slice(&block)?;
    }
    Ok(marks)
}

/// Lays the marks out one after another, with no index.
pub(crate) fn unpack(
    alloc: Global,
    index: &mut Vec<u8>,
    blocks: &mut Vec<u64>,
) -> Result<(), NoMemory>
    requires { AreWithin index.old.items blocks.old.items }
    ensures same { marks_of index.new.items blocks.new.items ≡ marks_of index.old.items blocks.old.items }
    ensures within { AreWithin index.new.items blocks.new.items }
    ensures open { IfOk result (λ done. index.new.items ≡ []) }
{
    if index.len() > 0 {
        *blocks = lay_out(alloc, index.as_slice(), blocks.as_slice())?;
        index.clear();
    }
    Ok(())
}

/// The number of a block: of the first one or the last one where these are the same, and else of a new one.
pub(crate) fn keep_block(blocks: &mut Vec<u64>, block: [u64; BLOCK]) -> Result<u8, NoMemory>
    requires four { length block ≡ 4 }
    requires some { 4 ≤ length blocks.old.items }
    requires size { length blocks.old.items % 4 ≡ 0 }
    requires few { length blocks.old.items ≤ 1020 }
    ensures { IfOk result (IsKept block blocks.old.items blocks.new.items) }
{
    if block_of(blocks.as_slice(), 0) == block {
        return Ok(0);
    }
    let last = (blocks.len() - 1) / BLOCK;
    if block_of(blocks.as_slice(), last) == block {
        return Ok(last as u8);
    }
    blocks.extend_from_slice(&block)?;
    Ok(last as u8 + 1)
}

/// Sets the marks that are set in either. Most blocks of the others have none.
pub(crate) fn join_marks(marks: &mut [u64], others: &KeyTable)
    requires mine { length marks.old ≡ MARK_WORDS }
    requires other { length others.now ≡ MARK_WORDS }
    ensures { (at : ℕ) → is_marked marks.new at ≡ (is_marked marks.old at || is_marked others.now at) }
{
    for at in 0..BLOCKS {
        let block = others.block(at);
        if block != [0; BLOCK] {
            join_block(marks, at, block);
        }
    }
}

/// Sets the marks of a block at its place.
fn join_block(marks: &mut [u64], at: usize, block: [u64; BLOCK])
    requires mine { length marks.old ≡ MARK_WORDS }
    requires four { length block ≡ 4 }
    requires within { at < BLOCKS }
    ensures inside { (k : ℕ) → k < 4 → slice_index marks.new (4 * at + k) ≡ bit_or (slice_index marks.old (4 * at + k)) (slice_index block k) }
    ensures outside { (k : ℕ) → (k < 4 * at) ⊎ (4 * at + 4 ≤ k) → slice_index marks.new k ≡ slice_index marks.old k }
{
    for k in 0..BLOCK {
        marks[BLOCK * at + k] |= block[k];
    }
}

/// A number that is the same for the same marks, and mostly another for others.
pub(crate) fn digest(table: &KeyTable) -> u64
    requires { length table.now ≡ MARK_WORDS }
    ensures { result ≡ digest_of table.now }
{
    let mut digest: u64 = 0;
    for at in 0..MARK_WORDS {
        digest = digest
            .wrapping_mul(0x9E37_79B9_7F4A_7C15)
            .wrapping_add(table.word(at));
    }
    digest
}
