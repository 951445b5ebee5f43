//! The lines that tell a fault.

ghost use Rattle.std.specs.Prelude.{◌≡◌, ◌≤◌, [], ◌∷◌, ◌++◌, codes, length, OnOk};
ghost use Rattle.std.specs.List.{flat_map};
ghost use Rattle.csn_plan.specs.declared.compiling.TheConstants.{MOST_DESCRIPTION};
ghost use Rattle.csn_reasons.specs.Told.{spot_text};

use crate::asked::Asked;
use crate::spot::{Spot, line_at, spot_of};
use csn_bits::NoMemory;
use csn_plan::push_number;

/// Nothing but want of memory keeps words from being written.
pub(crate) type Told = Result<(), NoMemory>;

/// Writes pieces one behind the other.
pub(crate) fn say(out: &mut Vec<u8>, pieces: &[&[u8]]) -> Told
    ensures { OnOk result (out.new.items ≡ out.old.items ++ flat_map (λ piece. piece.now) pieces.now) }
{
    for piece in pieces {
        out.extend_from_slice(piece)?;
    }
    Ok(())
}

/// Writes words.
pub(crate) fn words(out: &mut Vec<u8>, text: &str) -> Told
    ensures { OnOk result (out.new.items ≡ out.old.items ++ text.now) }
{
    out.extend_from_slice(text.as_bytes())?;
    Ok(())
}

/// Writes `FILE:LINE:COLUMN`.
fn say_spot(out: &mut Vec<u8>, asked: Asked<'_>, spot: Spot) -> Told
    ensures { OnOk result (out.new.items ≡ out.old.items ++ spot_text asked.entry.file.now spot.line spot.column) }
{
    out.extend_from_slice(asked.file.as_bytes())?;
    out.push(b':')?;
    push_number(out, spot.line)?;
    out.push(b':')?;
    push_number(out, spot.column)?;
    Ok(())
}

/// Writes a line with its place and some words, the line of the text, and a mark under the place.
pub(crate) fn tell(out: &mut Vec<u8>, asked: Asked<'_>, place: u32, pieces: &[&[u8]]) -> Told
    requires { length asked.text.now ≤ MOST_DESCRIPTION }
{
    let spot = spot_of(asked.text, place);
    say_spot(out, asked, spot)?;
    out.extend_from_slice(b": ")?;
    say(out, pieces)?;
    out.push(b'\n')?;
    show_line(out, line_at(asked.text, place, spot), spot.column)
}

/// Writes a line of the text, and a mark under its column.
fn show_line(out: &mut Vec<u8>, line: &[u8], column: u32) -> Told {
    out.extend_from_slice(b"  ")?;
    out.extend_from_slice(line)?;
    out.extend_from_slice(b"\n  ")?;
    for at in 0..column.saturating_sub(1) {
        match line.get(at as usize) {
            Some(b'\t') => out.push(b'\t')?,
            _ => out.push(b' ')?,
        }
    }
    out.extend_from_slice(b"^\n")?;
    Ok(())
}

/// Writes a further line.
pub(crate) fn more(out: &mut Vec<u8>, pieces: &[&[u8]]) -> Told
    ensures { OnOk result (out.new.items ≡ out.old.items ++ codes "  " ++ flat_map (λ piece. piece.now) pieces.now ++ 10 ∷ []) }
{
    out.extend_from_slice(b"  ")?;
    say(out, pieces)?;
    out.push(b'\n')?;
    Ok(())
}
