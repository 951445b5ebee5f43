//! The fields of a block as a table for people.

use crate::text::{push_hex, push_mask, push_number, push_place, push_verdict};
use crate::writer::{LeafWriter, Standing, Stopped, push_way};
use csn_fields::Leaf;
use std::alloc::{AllocError, Global};

/// How many columns have another one behind them.
const COLUMNS: usize = 5;

/// Between two columns stand so many spaces, and as many before the first one.
const GAP: usize = 2;

/// The cells of the first row.
const HEAD: &[u8] = b"at\tbits\tvalue\thex\talt\tpath\n";

/// Writes a table of a block: a row for each leaf, with where it stands, its bits in their octets, its value in decimal
/// and in hexadecimal, the alternatives that begin with it, and the way to it.
#[derive(Drop)]
pub struct Table {
    /// The rows so far, with tabs between cells.
    rows: Vec<u8>,
    /// How many bits the leaves so far have.
    told: u32,
    /// What is written of the block.
    text: Vec<u8>,
}

/// Writes the value of a leaf in decimal and in hexadecimal, in two cells; or nothing where it has more than 64 bits.
fn push_values(out: &mut Vec<u8>, leaf: Leaf) -> Result<(), AllocError> {
    if let Some(number) = leaf.number {
        push_number(out, number)?;
        out.push(b'\t')?;
        push_hex(out, number)
    } else {
        Ok(out.push(b'\t')?)
    }
}

/// Writes the way to where a block was refused, and what was wanted there.
fn push_stop(out: &mut Vec<u8>, stopped: Stopped<'_>) -> Result<(), AllocError> {
    if stopped.path.len() > 0 {
        out.extend_from_slice(stopped.path)?;
        out.push(b' ')?;
    }
    out.extend_from_slice(b"<- ")?;
    out.extend_from_slice(stopped.wanted)
}

/// How wide the columns are of some rows, of which each cell has a tab behind it, but for the last one.
fn widths_of(rows: &[u8]) -> [usize; COLUMNS] {
    let mut widths = [0; COLUMNS];
    for row in rows.split(|byte: &u8| *byte == b'\n') {
        for (column, cell) in row.split(|byte: &u8| *byte == b'\t').enumerate() {
            if column < COLUMNS {
                widths[column] = widths[column].max(cell.len());
            }
        }
    }
    widths
}

/// Writes so many spaces.
fn push_spaces(out: &mut Vec<u8>, count: usize) -> Result<(), AllocError> {
    for _ in 0..count {
        out.push(b' ')?;
    }
    Ok(())
}

/// Writes a row with its cells in columns of these widths. Behind the last cell that is not empty stand no spaces.
fn push_row(out: &mut Vec<u8>, row: &[u8], widths: &[usize; COLUMNS]) -> Result<(), AllocError> {
    let mut gap = GAP;
    for (column, cell) in row.split(|byte: &u8| *byte == b'\t').enumerate() {
        if cell.len() > 0 {
            push_spaces(out, gap)?;
            out.extend_from_slice(cell)?;
            gap = 0;
        }
        let width = widths.get(column).copied().unwrap_or(0);
        let rest = width.saturating_sub(cell.len());
        gap = gap.saturating_add(rest).saturating_add(GAP);
    }
    Ok(out.push(b'\n')?)
}

/// Writes rows with their cells in columns.
fn push_rows(out: &mut Vec<u8>, rows: &[u8]) -> Result<(), AllocError> {
    let widths = widths_of(rows);
    for row in rows.split(|byte: &u8| *byte == b'\n') {
        if row.len() > 0 {
            push_row(out, row, &widths)?;
        }
    }
    Ok(())
}

impl LeafWriter for Table {
    fn new(alloc: Global) -> Table {
        Table {
            rows: Vec::new(alloc),
            told: 0,
            text: Vec::new(alloc),
        }
    }

    fn begin(&mut self, line: &[u8]) -> Result<(), AllocError> {
        self.told = 0;
        self.text.clear();
        self.text.extend_from_slice(line)?;
        self.text.push(b'\n')?;
        self.rows.clear();
        self.rows.extend_from_slice(HEAD)
    }

    fn leaf(&mut self, standing: Standing<'_>) -> Result<(), AllocError> {
        let leaf = standing.leaf;
        push_place(&mut self.rows, leaf.place)?;
        self.rows.push(b'\t')?;
        push_mask(&mut self.rows, standing.block, leaf.place, leaf.bits)?;
        self.rows.push(b'\t')?;
        push_values(&mut self.rows, leaf)?;
        self.rows.push(b'\t')?;
        self.rows.extend_from_slice(standing.chosen)?;
        self.rows.push(b'\t')?;
        push_way(&mut self.rows, standing)?;
        self.rows.push(b'\n')?;
        self.told = leaf.place.saturating_add(leaf.bits);
        Ok(())
    }

    fn end(&mut self) -> Result<(), AllocError> {
        push_rows(&mut self.text, &self.rows)?;
        self.text.extend_from_slice(b"ok\n")
    }

    fn stop(&mut self, stopped: Stopped<'_>) -> Result<(), AllocError> {
        push_place(&mut self.rows, self.told)?;
        self.rows.push(b'\t')?;
        let behind = stopped.place.saturating_add(1);
        let bits = behind.saturating_sub(self.told);
        push_mask(&mut self.rows, stopped.block, self.told, bits)?;
        self.rows.extend_from_slice(b"\t\t\t\t")?;
        push_stop(&mut self.rows, stopped)?;
        self.rows.push(b'\n')?;
        push_rows(&mut self.text, &self.rows)?;
        push_verdict(&mut self.text, stopped.place, stopped.block.len())?;
        Ok(self.text.push(b'\n')?)
    }

    fn refuse(&mut self, answer: &[u8]) -> Result<(), AllocError> {
        self.text.extend_from_slice(answer)?;
        Ok(self.text.push(b'\n')?)
    }

    fn text(&self) -> &[u8] {
        &self.text
    }
}
