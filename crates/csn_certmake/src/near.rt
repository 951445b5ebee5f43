//! Which parts of a sequence are near its beginning: those from behind which no marks of a pattern count.

ghost use Rattle.std.specs.Prelude.{◌≡◌, ◌≤◌, ◌<◌, ℕ, length};
ghost use Rattle.csn_cert.specs.declared.pattern.TheConstants.{MOST_MARKS};
ghost use Rattle.csn_certmake.specs.Patterns.{AreRows, patterns_in, patterns_at};
ghost use Rattle.csn_certmake.specs.Near.{HaveMarks, HaveTogether};

use crate::row::Row;
use csn_cert::{MOST_MARKS, Pattern};
use csn_desc::Parts;

/// How many of the first parts are near: all, or as many as have all the marks that count.
pub(crate) fn near_parts(rows: &[Row], parts: &Parts) -> u16
    requires { AreRows rows.now parts.now }
    ensures within { result ≤ length parts.now }
    ensures marks { result < length parts.now → HaveTogether (patterns_at rows.now) parts.now result MOST_MARKS }
{
    let mut marks = 0;
    for at in 0..parts.len() {
        if marks >= MOST_MARKS as u8 {
            return at;
        }
        marks += least_of_row(&rows[parts.get(at) as usize]);
    }
    parts.len()
}

/// The least number of marks that a whole pattern of a row has, or twelve where none has fewer.
fn least_of_row(row: &Row) -> u8
    requires { length row.now ≡ 8 }
    ensures few { result ≤ MOST_MARKS }
    ensures least { (octet : ℕ) → octet ≤ 7 → HaveMarks result (patterns_in row.now octet) }
{
    let mut least = MOST_MARKS as u8;
    for octet in 0..8 {
        least = least_of(row.at(octet), least);
    }
    least
}

/// The least number of marks that a whole pattern has, or the one that is given where none has fewer.
fn least_of(patterns: &[Pattern], most: u8) -> u8
    ensures few { result ≤ most }
    ensures least { HaveMarks result patterns.now }
{
    let mut least = most;
    for pattern in patterns {
        if pattern.whole() && pattern.len() < least {
            least = pattern.len();
        }
    }
    least
}
