ghost use Rattle.std.specs.Prelude.{◌<◌};

use crate::texts::plan_of;
use csn_bits::{LineWhy, MOST_LINE};
use csn_movetext::{LineEnd, LineText, Openings, TreeForm};
use std::alloc::Global;
use std::process::Abort;
use std::test::Fail;

// what the line comes to that comes in pieces of so many bytes
fn read(
    text: &mut LineText<'_>,
    line: &[u8],
    size: usize,
    out: &mut Vec<u8>,
) -> Result<LineEnd, Fail>
    requires { 0 < size }
{
    for piece in line.chunks(size) {
        if text.seen() as usize + piece.len() > MOST_LINE as usize {
            return Err("a long line".into());
        }
        text.take(piece);
    }
    text.end(out).map_err(|_| "out of memory".into())
}

// A line, what it comes to, and what is written of it.
type LineCase = (&'static [u8], LineEnd, &'static [u8]);

const LINES: &[LineCase] = &[
    (b"25", LineEnd::Text { bits: 8 }, b"[. 7'37]"),
    (b"A5", LineEnd::Refused { place: 0, bits: 8 }, b""),
    (
        b"A5A5A5 A5",
        LineEnd::Fault(LineWhy::BadDigit { column: 6 }),
        b"",
    ),
    (b"25", LineEnd::Text { bits: 8 }, b"[. 7'37]"),
];

// what a line comes to, and what was written of it, is as wanted
fn expect_line<R: Abort>(rt: &R, end: &LineEnd, out: &[u8], want: &LineEnd, written: &[u8]) {
    assert_eq!(rt; *end, *want);
    assert!(rt; out == written);
}

// a line of the table, in pieces of so many bytes
fn reads_line<R: Abort>(
    rt: &R,
    alloc: Global,
    text: &mut LineText<'_>,
    size: usize,
    case: &LineCase,
) -> Result<(), Fail>
    requires { 0 < size }
{
    let (line, want, written) = case;
    let mut out = Vec::new(alloc);
    let end = read(text, line, size, &mut out)?;
    expect_line(rt, &end, &out, want, written);
    Ok(())
}

// all lines of the table by one value, in pieces of so many bytes
fn reads<R: Abort>(rt: &R, alloc: Global, text: &mut LineText<'_>, size: usize) -> Result<(), Fail>
    requires { 0 < size }
{
    for case in LINES {
        reads_line(rt, alloc, text, size, case)?;
    }
    Ok(())
}

#[test]
fn lines_come_in_pieces(rt: HostRuntime) -> Result<(), Fail> {
    let plan = plan_of(rt.alloc(), "<M> ::= 0 bit (**) ;")?;
    let Ok(openings) = Openings::new(rt.alloc(), &plan, TreeForm::Text) else {
        return Err("out of memory".into());
    };
    let mut text = LineText::new(rt.alloc(), &plan, &openings);
    for size in [1000, 1, 3] {
        reads(&rt, rt.alloc(), &mut text, size)?;
    }
    Ok(())
}
