//! Decimal numbers with no zero in front.

ghost use Rattle.std.specs.Prelude.{◌≡◌, ◌+◌, ◌<◌, ◌≤◌, ◌==◌, true, false, length, slice_index, None, Some, IfSome, IfNone};
ghost use Rattle.std.specs.Option.{ForSome};
ghost use Rattle.csn_treetext.specs.declared.bounds.TheConstants.{MOST_SHORT};
ghost use Rattle.csn_treetext.specs.reader.Numeral.{digit_of, grown, greatest_of};
ghost use Rattle.csn_treetext.specs.reader.Reading.{LeadsTo};

use crate::bounds::MOST_SHORT;

/// The byte at a place, if the text has one there.
pub fn byte_at(text: &[u8], at: usize) -> Option<u8>
    ensures some { IfSome result (λ byte. (at < length text.now) × (byte ≡ slice_index text.now at)) }
    ensures none { IfNone result (length text.now ≤ at) }
{
    if at < text.len() {
        Some(text[at])
    } else {
        None
    }
}

/// Whether a byte stands at a place.
pub fn stands_at(text: &[u8], at: usize, byte: u8) -> bool
    ensures yes { result ≡ true → (at < length text.now) × ((slice_index text.now at == byte) ≡ true) }
    ensures no { result ≡ false → at < length text.now → (slice_index text.now at == byte) ≡ false }
{
    at < text.len() && text[at] == byte
}

// The value of a decimal digit.
fn digit_of(byte: u8) -> Option<u64>
    ensures { result ≡ digit_of byte }
{
    match byte {
        b'0'..=b'9' => Some(u64::from(byte - b'0')),
        _ => None,
    }
}

/// The number of the digits before this byte, if there are any, and of this one: at most `most`, with no
/// zero in front.
pub fn grown(most: u64, number: Option<u64>, byte: u8) -> Option<u64>
    ensures value { result ≡ grown most number byte }
    ensures few { ForSome result (λ n. n ≤ most) }
{
    let digit = digit_of(byte)?;
    let front = match number {
        None => 0,
        Some(0) => return None,
        Some(number) => number,
    };
    if digit <= most && front <= (most - digit) / 10 {
        Some(10 * front + digit)
    } else {
        None
    }
}

/// The first digit of a number, where one stands at a place.
pub fn first_digit(most: u64, text: &[u8], at: usize) -> Option<u64>
    ensures some { IfSome result (λ number. (at < length text.now) × (number ≤ most) × (grown most None (slice_index text.now at) ≡ Some number)) }
    ensures none { IfNone result (at < length text.now → grown most None (slice_index text.now at) ≡ None) }
{
    grown(most, None, byte_at(text, at)?)
}

/// The number whose first digits are known and whose others stand from a place on, and where they end.
pub fn digits(most: u64, first: u64, text: &[u8], from: usize) -> (u64, usize)
    requires within { from ≤ length text.now }
    requires few { first ≤ most }
    ensures leads { LeadsTo most text.now from first result.1 result.0 }
    ensures stops { result.1 < length text.now → grown most (Some result.0) (slice_index text.now result.1) ≡ None }
    ensures from { from ≤ result.1 }
    ensures within { result.1 ≤ length text.now }
    ensures few { result.0 ≤ most }
    ensures rises { first ≤ result.0 }
{
    let mut number = first;
    let mut at = from;
    while at < text.len() {
        match grown(most, Some(number), text[at]) {
            Some(next) => number = next,
            None => return (number, at),
        }
        at += 1;
    }
    (number, at)
}

/// The greatest number that so many bits write.
pub fn greatest_of(width: u8) -> u64
    requires some { 1 ≤ width }
    requires few { width ≤ MOST_SHORT }
    ensures { result ≡ greatest_of width }
{
    u64::MAX >> (MOST_SHORT - u32::from(width))
}
