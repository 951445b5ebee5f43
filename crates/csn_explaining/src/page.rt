//! Blocks drawn bit by bit, as a page of HTML that needs nothing else.

ghost use Rattle.std.specs.Prelude.{◌≡◌, ◌≤◌, ◌++◌, OnOk};
ghost use Rattle.csn_explaining.specs.declared.page_text.TheConstants.{BEFORE_TITLE, BEHIND_TITLE, FOOT, STYLE};
ghost use Rattle.csn_explaining.specs.Texts.{html_text};

use crate::page_text::{BEFORE_TITLE, BEHIND_TITLE, FOOT, STYLE};
use crate::text::{
    push_count, push_hex, push_html, push_number, push_octet, push_place, push_verdict,
};
use crate::writer::{LeafWriter, Standing, Stopped, kind_word, push_way};
use csn_bits::Bits;
use csn_fields::{Leaf, LeafKind};
use std::alloc::{AllocError, Global};

/// How many colours fields have in turn.
const COLOURS: u32 = 8;

/// Draws a block: its bits, an octet a row, each in a cell with the colour of its field, and beside them a table of the
/// fields.
#[derive(Drop)]
pub struct Drawing {
    /// The cells of bits so far.
    cells: Vec<u8>,
    /// How many bits have a cell.
    drawn: u32,
    /// The rows of the table of fields so far.
    rows: Vec<u8>,
    /// How many rows these are.
    count: u32,
    /// What is written of the block.
    text: Vec<u8>,
}

/// What the cell of a bit looks like.
#[derive(Clone, Copy)]
enum Look {
    /// A bit of the leaf with this number.
    Leaf(LeafKind, u32),
    /// A bit that was read, of a leaf that is not whole.
    Begun,
    /// The bit that cannot be followed.
    Refused,
    /// A bit behind it.
    Unread,
}

/// Writes the beginning of a page about a rule.
pub fn push_head(out: &mut Vec<u8>, name: &[u8]) -> Result<(), AllocError>
    ensures { OnOk result (out.new.items ≡ out.old.items
        ++ (BEFORE_TITLE.now ++ (html_text name.now ++ (STYLE.now ++ (html_text name.now ++ BEHIND_TITLE.now))))) }
{
    out.extend_from_slice(BEFORE_TITLE)?;
    push_html(out, name)?;
    out.extend_from_slice(STYLE)?;
    push_html(out, name)?;
    out.extend_from_slice(BEHIND_TITLE)
}

/// Writes the end of a page.
pub fn push_foot(out: &mut Vec<u8>) -> Result<(), AllocError>
    ensures { OnOk result (out.new.items ≡ out.old.items ++ FOOT.now) }
{
    out.extend_from_slice(FOOT)
}

/// Writes the class that gives a look its colour.
fn push_class(out: &mut Vec<u8>, look: Look) -> Result<(), AllocError> {
    match look {
        Look::Leaf(LeafKind::Field, number) => {
            out.push(b'c')?;
            push_count(out, number % COLOURS)
        }
        Look::Leaf(kind, _) => out.extend_from_slice(kind_word(kind)),
        Look::Begun => out.extend_from_slice(b"begun"),
        Look::Refused => out.extend_from_slice(b"refused"),
        Look::Unread => out.extend_from_slice(b"unread"),
    }
}

/// Writes the beginning of a row of bits: the number of the octet, and the octet where the block has it whole.
fn push_row_head(out: &mut Vec<u8>, block: &Bits, octet: u32) -> Result<(), AllocError> {
    out.extend_from_slice(b"<tr><th>")?;
    push_count(out, octet)?;
    out.extend_from_slice(b"</th><th>")?;
    if octet < block.len() / 8 {
        push_octet(out, block.octets()[octet as usize])?;
    }
    out.extend_from_slice(b"</th>")
}

/// Writes the cell of a bit.
fn push_cell(out: &mut Vec<u8>, look: Look, is_first: bool, bit: u8) -> Result<(), AllocError>
    requires { bit ≤ 1 }
{
    out.extend_from_slice(b"<td class=\"")?;
    push_class(out, look)?;
    if is_first {
        out.extend_from_slice(b" first")?;
    }
    out.push(b'"')?;
    if let Look::Leaf(_, number) = look {
        out.extend_from_slice(b" data-part=\"")?;
        push_count(out, number)?;
        out.push(b'"')?;
    }
    out.push(b'>')?;
    out.push(b'0' + bit)?;
    out.extend_from_slice(b"</td>")
}

/// Writes the value of a leaf: in decimal and in hexadecimal, where it has at most 64 bits.
fn push_value_cells(out: &mut Vec<u8>, leaf: Leaf, number: u32) -> Result<(), AllocError> {
    out.extend_from_slice(b"</td><td class=\"")?;
    push_class(out, Look::Leaf(leaf.kind, number))?;
    out.extend_from_slice(b"\">")?;
    if let Some(value) = leaf.number {
        push_number(out, value)?;
        out.extend_from_slice(b"</td><td>")?;
        push_hex(out, value)
    } else {
        out.extend_from_slice(b"</td><td>")
    }
}

/// Writes the row of a leaf in the table of fields.
fn push_leaf_row(out: &mut Vec<u8>, standing: Standing<'_>, number: u32) -> Result<(), AllocError> {
    let leaf = standing.leaf;
    out.extend_from_slice(b"<tr data-part=\"")?;
    push_count(out, number)?;
    out.extend_from_slice(b"\"><td>")?;
    push_place(out, leaf.place)?;
    out.extend_from_slice(b"</td><td>")?;
    push_count(out, leaf.bits)?;
    push_value_cells(out, leaf, number)?;
    out.extend_from_slice(b"</td><td>")?;
    out.extend_from_slice(standing.chosen)?;
    out.extend_from_slice(b"</td><td>")?;
    push_way(out, standing)?;
    out.extend_from_slice(b"</td></tr>\n")
}

impl Drawing {
    /// Draws the bits of a block up to a place.
    fn draw(&mut self, block: &Bits, until: u32, look: Look) -> Result<(), AllocError> {
        let from = self.drawn;
        let end = until.min(block.len());
        for at in from..end {
            if at % 8 == 0 {
                push_row_head(&mut self.cells, block, at / 8)?;
            }
            push_cell(&mut self.cells, look, at == from, block.get(at))?;
            if at % 8 == 7 {
                self.cells.extend_from_slice(b"</tr>\n")?;
            }
        }
        self.drawn = from.max(end);
        Ok(())
    }

    /// Puts the bits and the table of fields side by side.
    fn close(&mut self) -> Result<(), AllocError> {
        self.text
            .extend_from_slice(b"<div class=\"block\">\n<table class=\"bits\">\n")?;
        self.text.extend_from_slice(&self.cells)?;
        self.text
            .extend_from_slice(b"</table>\n<table class=\"parts\">\n")?;
        self.text
            .extend_from_slice(b"<tr><th>at</th><th>bits</th><th>value</th><th>hex</th>")?;
        self.text
            .extend_from_slice(b"<th>alt</th><th>path</th></tr>\n")?;
        self.text.extend_from_slice(&self.rows)?;
        self.text.extend_from_slice(b"</table>\n</div>\n")
    }
}

impl LeafWriter for Drawing {
    fn new(alloc: Global) -> Drawing {
        Drawing {
            cells: Vec::new(alloc),
            drawn: 0,
            rows: Vec::new(alloc),
            count: 0,
            text: Vec::new(alloc),
        }
    }

    fn begin(&mut self, line: &[u8]) -> Result<(), AllocError> {
        self.cells.clear();
        self.drawn = 0;
        self.rows.clear();
        self.count = 0;
        self.text.clear();
        self.text.extend_from_slice(b"<h2>")?;
        push_html(&mut self.text, line)?;
        self.text.extend_from_slice(b"</h2>\n")
    }

    fn leaf(&mut self, standing: Standing<'_>) -> Result<(), AllocError> {
        let leaf = standing.leaf;
        let number = self.count;
        let until = leaf.place.saturating_add(leaf.bits);
        self.draw(standing.block, until, Look::Leaf(leaf.kind, number))?;
        push_leaf_row(&mut self.rows, standing, number)?;
        self.count = number.saturating_add(1);
        Ok(())
    }

    fn end(&mut self) -> Result<(), AllocError> {
        self.close()
    }

    fn stop(&mut self, stopped: Stopped<'_>) -> Result<(), AllocError> {
        self.draw(stopped.block, stopped.place, Look::Begun)?;
        self.draw(
            stopped.block,
            stopped.place.saturating_add(1),
            Look::Refused,
        )?;
        self.draw(stopped.block, stopped.block.len(), Look::Unread)?;
        self.close()?;
        self.text.extend_from_slice(b"<p class=\"stop\">")?;
        push_verdict(&mut self.text, stopped.place, stopped.block.len())?;
        self.text.extend_from_slice(b": ")?;
        push_html(&mut self.text, stopped.wanted)?;
        self.text.extend_from_slice(b" wanted at <b>")?;
        push_place(&mut self.text, stopped.place)?;
        self.text.push(b' ')?;
        self.text.extend_from_slice(stopped.path)?;
        self.text.extend_from_slice(b"</b></p>\n")
    }

    fn refuse(&mut self, answer: &[u8]) -> Result<(), AllocError> {
        self.text.extend_from_slice(b"<p class=\"stop\">")?;
        self.text.extend_from_slice(answer)?;
        self.text.extend_from_slice(b"</p>\n")
    }

    fn text(&self) -> &[u8] {
        &self.text
    }
}
