//! One piece more of a text: what begins a tree, a whole leaf, or what ends a tree.

ghost use Rattle.std.specs.Prelude.{◌≡◌, ◌+◌, ◌<◌, ◌≤◌, length, IfOk};
ghost use Rattle.csn_bits.specs.declared.feed.TheConstants.{MOST_LINE};
ghost use Rattle.csn_treetext.specs.declared.bounds.TheConstants.{MOST_SHORT};
ghost use Rattle.csn_treetext.specs.reader.Machine.{HasRoom, HasRoomBelow, state};
ghost use Rattle.csn_treetext.specs.reader.Mode.{Start, Opened, Behind, Width, Quote, Hash};
ghost use Rattle.csn_treetext.specs.reader.Reading.{Comes, HasRoomFor, Stands, Takes, mode_of};

use crate::bounds::{GREATEST_ALTERNATIVE, MOST_SHORT};
use crate::closing::close;
use crate::decimals::{digits, first_digit, greatest_of, stands_at};
use crate::leaf::{leaf, number_leaf};
use crate::long::{bit_digits, block_line};
use crate::name::name;
use crate::next::{Next, Taken};
use crate::source::Source;
use crate::stack::{Frame, MOST_ROUND, Stack};
use crate::version::Version;
use csn_bits::{Bits, NoMemory};
use csn_desc::{Rows, Shape, Tree};

/// Reads one piece more.
pub fn take(source: Source, stack: &mut Stack, next: Next, at: usize) -> Result<Taken, NoMemory>
    requires within { at < length source.text.now }
    requires line { length source.text.now ≤ MOST_LINE }
    requires room { HasRoomFor next stack.old }
    requires stands { Stands source.version source.text.now at (state (mode_of next) stack.old) }
    ensures { IfOk result (Takes source.entry.version source.entry.text.now (at + 1) stack.new) }
{
    match next {
        Next::Start => begin(source, stack, at),
        Next::Opened => begin_row(source, stack, at),
        Next::Behind => after_tree(source, stack, at),
    }
}

// A tree begins.
fn begin(source: Source, stack: &mut Stack, at: usize) -> Result<Taken, NoMemory>
    requires within { at < length source.text.now }
    requires room { HasRoom stack.old }
    requires stands { Stands source.version source.text.now at (state Start stack.old) }
    ensures { IfOk result (Takes source.entry.version source.entry.text.now (at + 1) stack.new) }
{
    let byte = source.text[at];
    let version = source.version;
    match byte {
        b'.' => {
            let tree = Tree {
                shape: Shape::Empty,
            };
            close(source, stack, tree, at + 1)
        }
        b'[' => Ok(Taken::Up(Next::Opened, at + 1)),
        b'#' if stack.len() < MOST_ROUND => alternative(source, stack, at + 1),
        b'<' if stack.len() < MOST_ROUND => name(source, stack, at + 1),
        b'b' => match version {
            Version::First => bit_digits(source, stack, at + 1),
            Version::Second => close(source, stack, leaf(Bits::new(source.alloc)), at + 1),
        },
        b'x' => match version {
            Version::First => Ok(Taken::Refused(at)),
            Version::Second => block_line(source, stack, at + 1),
        },
        b'1'..=b'9' => short_leaf(source, stack, byte - b'0', at + 1),
        _ => Ok(Taken::Refused(at)),
    }
}

// Behind `[`.
fn begin_row(source: Source, stack: &mut Stack, at: usize) -> Result<Taken, NoMemory>
    requires within { at < length source.text.now }
    requires room { HasRoom stack.old }
    requires stands { Stands source.version source.text.now at (state Opened stack.old) }
    ensures { IfOk result (Takes source.entry.version source.entry.text.now (at + 1) stack.new) }
{
    let text = source.text;
    if text[at] == b']' {
        let row = Tree {
            shape: Shape::Row(Rows::new(source.alloc)),
        };
        return close(source, stack, row, at + 1);
    }
    if stack.len() >= MOST_ROUND {
        return Ok(Taken::Refused(at));
    }
    stack.push(Frame::Row(Rows::new(source.alloc)))?;
    begin(source, stack, at)
}

// Behind a tree of the innermost row.
fn after_tree(source: Source, stack: &mut Stack, at: usize) -> Result<Taken, NoMemory>
    requires within { at < length source.text.now }
    requires line { length source.text.now ≤ MOST_LINE }
    requires room { HasRoomBelow stack.old }
    requires stands { Stands source.version source.text.now at (state Behind stack.old) }
    ensures { IfOk result (Takes source.entry.version source.entry.text.now (at + 1) stack.new) }
{
    let text = source.text;
    if text[at] == b' ' && stack.is_in_row() {
        return Ok(Taken::Up(Next::Start, at + 1));
    }
    if text[at] != b']' {
        return Ok(Taken::Refused(at));
    }
    let Some(rows) = stack.pop_row() else {
        return Ok(Taken::Refused(at));
    };
    let row = Tree {
        shape: Shape::Row(rows),
    };
    close(source, stack, row, at + 1)
}

// Behind `#`: the number of an alternative and `:`.
fn alternative(source: Source, stack: &mut Stack, from: usize) -> Result<Taken, NoMemory>
    requires within { from ≤ length source.text.now }
    requires room { HasRoom stack.old }
    requires comes { Comes source.version source.text.now from (state Hash stack.old) }
    ensures { IfOk result (Takes source.entry.version source.entry.text.now from stack.new) }
{
    let text = source.text;
    let most = u64::from(GREATEST_ALTERNATIVE);
    let Some(first) = first_digit(most, text, from) else {
        return Ok(Taken::Refused(from));
    };
    let (number, end) = digits(most, first, text, from + 1);
    if !stands_at(text, end, b':') {
        return Ok(Taken::Refused(end));
    }
    stack.push(Frame::Alt(number as u16))?;
    Ok(Taken::Up(Next::Start, end + 1))
}

// Behind the first digit of a width: its other digits, `'` and a number.
fn short_leaf(source: Source, stack: &mut Stack, first: u8, from: usize) -> Result<Taken, NoMemory>
    requires within { from ≤ length source.text.now }
    requires some { 1 ≤ first }
    requires few { first ≤ MOST_SHORT }
    requires room { HasRoom stack.old }
    requires comes { Comes source.version source.text.now from (state (Width first) stack.old) }
    ensures { IfOk result (Takes source.entry.version source.entry.text.now from stack.new) }
{
    let text = source.text;
    let (width, end) = digits(u64::from(MOST_SHORT), u64::from(first), text, from);
    if !stands_at(text, end, b'\'') {
        return Ok(Taken::Refused(end));
    }
    value(source, stack, width as u8, end + 1)
}

// Behind `'`: the number that the bits of a leaf write.
fn value(source: Source, stack: &mut Stack, width: u8, from: usize) -> Result<Taken, NoMemory>
    requires within { from ≤ length source.text.now }
    requires room { HasRoom stack.old }
    requires some { 1 ≤ width }
    requires few { width ≤ MOST_SHORT }
    requires comes { Comes source.version source.text.now from (state (Quote width) stack.old) }
    ensures { IfOk result (Takes source.entry.version source.entry.text.now from stack.new) }
{
    let text = source.text;
    let most = greatest_of(width);
    let Some(first) = first_digit(most, text, from) else {
        return Ok(Taken::Refused(from));
    };
    let (number, end) = digits(most, first, text, from + 1);
    let tree = number_leaf(source.alloc, width, number)?;
    close(source, stack, tree, end)
}
