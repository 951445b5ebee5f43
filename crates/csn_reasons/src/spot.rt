//! Where places stand in a text.

ghost use Rattle.std.specs.Prelude.{◌≡◌, ◌≤◌, ◌-◌, length, take, drop};
ghost use Rattle.std.specs.List.{before_first, position_or_len};
ghost use Rattle.csn_plan.specs.declared.compiling.TheConstants.{MOST_DESCRIPTION};
ghost use Rattle.csn_reasons.specs.Spots.{IsBehind, IsSpot, piece_of, ends_line};

/// Where a byte of a text stands: its line and its column, both counted from 1. A column counts the bytes of
/// its line.
#[derive(Clone, Copy, Debug, PartialEq, Eq)]
pub struct Spot {
    pub line: u32,
    pub column: u32,
}

/// Where the byte at a place stands. A place past the end of the text stands behind its last byte.
pub fn spot_of(text: &[u8], place: u32) -> Spot
    requires fits { length text.now ≤ MOST_DESCRIPTION }
    ensures { IsSpot (take place text.now) result.line result.column }
{
    spot_behind(&text[..(place as usize).min(text.len())])
}

/// Where what follows these bytes stands.
fn spot_behind(bytes: &[u8]) -> Spot
    requires fits { length bytes.now ≤ MOST_DESCRIPTION }
    ensures { IsSpot bytes.now result.line result.column }
{
    let mut spot = Spot { line: 1, column: 1 };
    for byte in bytes {
        spot = behind(spot, *byte);
    }
    spot
}

/// Where what follows a byte stands.
fn behind(spot: Spot, byte: u8) -> Spot
    requires line { spot.line ≤ MOST_DESCRIPTION }
    requires column { spot.column ≤ MOST_DESCRIPTION }
    ensures { IsBehind byte spot.line spot.column result.line result.column }
{
    if byte == b'\n' {
        Spot {
            line: spot.line + 1,
            column: 1,
        }
    } else {
        Spot {
            line: spot.line,
            column: spot.column + 1,
        }
    }
}

/// Some bytes of a text, or none where it has none there.
pub(crate) fn piece(text: &[u8], from: u32, to: u32) -> &[u8]
    ensures { result.now ≡ piece_of text.now from to }
{
    match text.get(from as usize..to as usize) {
        Some(bytes) => bytes,
        None => b"",
    }
}

/// The bytes of the line that a place stands in.
pub(crate) fn line_at(text: &[u8], place: u32, spot: Spot) -> &[u8]
    ensures { result.now ≡ before_first ends_line (drop (place - (spot.column - 1)) text.now) }
{
    let start = place.saturating_sub(spot.column.saturating_sub(1));
    match text.get(start as usize..) {
        Some(rest) => &rest[..line_end(rest)],
        None => b"",
    }
}

/// How many bytes stand before the end of the first line.
fn line_end(text: &[u8]) -> usize
    ensures { result ≡ position_or_len ends_line text.now }
{
    for at in 0..text.len() {
        if ends_line(text[at]) {
            return at;
        }
    }
    text.len()
}

/// Whether a byte ends a line.
fn ends_line(byte: u8) -> bool
    ensures { result ≡ ends_line byte }
{
    byte == b'\n' || byte == b'\r'
}
