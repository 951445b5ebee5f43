//! Numbers as JSON writes them.

ghost use Rattle.std.specs.Prelude.{◌≡◌, ◌==◌, ◌<◌, true, false, length, slice_index, IsTrue};
ghost use Rattle.serde_json.specs.Read.{number_of, number_from, float_of};
ghost use Rattle.csn_json.specs.Pieces.{IsNumberOf};

use fast_float::Numeral;

/// A number: one that is whole and not below zero, and below 2 to 64; or another one.
#[derive(Clone, Copy)]
pub(crate) enum Number {
    Whole(u64),
    Other,
}

/// The number that a text of JSON's grammar writes; none where no float is so great.
pub(crate) fn read_number(text: &str) -> Option<Number>
    ensures { IsNumberOf result (number_of text.now) }
{
    let bytes = text.as_bytes();
    if has_minus(bytes) {
        negative(&Numeral::scan(&bytes[1..]))
    } else {
        unsigned(&Numeral::scan(bytes))
    }
}

/// Whether a text begins with a minus.
fn has_minus(bytes: &[u8]) -> bool
    ensures value { result ≡ (slice_index bytes.now 0 == 45) }
    ensures len { IsTrue result → 0 < length bytes.now }
{
    !bytes.is_empty() && bytes[0] == b'-'
}

/// The number of a numeral without a sign.
fn unsigned(numeral: &Numeral<'_>) -> Option<Number>
    ensures { IsNumberOf result (number_from false numeral.now) }
{
    match numeral.to_u64() {
        Some(number) => Some(Number::Whole(number)),
        None => finite(false, numeral),
    }
}

/// The number of a numeral behind a minus.
fn negative(numeral: &Numeral<'_>) -> Option<Number>
    ensures { IsNumberOf result (number_from true numeral.now) }
{
    if let Some(number) = numeral.to_i64(true) {
        if number < 0 {
            return Some(Number::Other);
        }
    }
    finite(true, numeral)
}

/// A number that is told apart from none: the float nearest to a numeral, where it is finite.
fn finite(negative: bool, numeral: &Numeral<'_>) -> Option<Number>
    ensures { IsNumberOf result (float_of negative numeral.now) }
{
    if numeral.to_float::<f64>(negative).is_finite() {
        Some(Number::Other)
    } else {
        None
    }
}
