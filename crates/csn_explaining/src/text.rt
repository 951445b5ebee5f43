//! Numbers and bits in the text that is written.

ghost use Rattle.std.specs.Prelude.{◌≡◌, ◌+◌, ◌%◌, ◌<◌, ◌≤◌, ◌++◌, IfOk, OnOk, OnErr, drop, length, take, true, vec_len, vec_capacity};
ghost use Rattle.std.specs.Fmt.{decimal, digit_glyph};
ghost use Rattle.csn_bits.specs.Octets.{bits_of_octet};
ghost use Rattle.csn_explaining.specs.LeafLine.{digits_of};
ghost use Rattle.csn_explaining.specs.Texts.{HasGrown, html_byte, html_text, octet_text, place_text, verdict_text};

use csn_bits::Bits;
use itoa::Buffer;
use std::alloc::AllocError;

/// How many groups of four bits a mask shows. Of a longer one a part is shown.
const MOST_GROUPS: u32 = 8;

/// Room for so many more bytes, so that these can be pushed with no further test.
#[inline(always)]
pub fn room(out: &mut Vec<u8>, more: usize) -> Result<(), AllocError>
    ensures room { OnOk result (vec_len out.new + more ≤ vec_capacity out.new) }
    ensures items { out.new.items ≡ out.old.items }
{
    if out.capacity() - out.len() < more {
        return make_room(out, more);
    }
    Ok(())
}

/// Room for so many more bytes, where there is none.
#[cold]
#[inline(never)]
fn make_room(out: &mut Vec<u8>, more: usize) -> Result<(), AllocError>
    ensures room { OnOk result (vec_len out.new + more ≤ vec_capacity out.new) }
    ensures items { out.new.items ≡ out.old.items }
{
    out.reserve(more)
}

/// Writes a number in decimal.
#[inline(always)]
pub fn push_number(out: &mut Vec<u8>, number: u64) -> Result<(), AllocError>
    ensures ok { OnOk result (out.new.items ≡ out.old.items ++ decimal number) }
    ensures err { OnErr result (out.new.items ≡ out.old.items) }
{
    room(out, 3)?;
    if number < 100 {
        push_pair(out, number);
        return Ok(());
    }
    if number < 1000 {
        push_pair(out, number / 10);
        out.push_reserved(b'0' + (number % 10) as u8);
        return Ok(());
    }
    push_many(out, number)
}

/// Writes a number of one or two digits, for which there is room.
#[inline(always)]
#[tactic(auto, using(crate::proofs::Decimals::one_digit))]
fn push_pair(out: &mut Vec<u8>, number: u64)
    requires few { number < 100 }
    requires room { vec_len out.old + 2 ≤ vec_capacity out.old }
    ensures items { out.new.items ≡ out.old.items ++ decimal number }
    ensures len { vec_len out.new ≤ vec_len out.old + 2 }
    ensures capacity { vec_capacity out.new ≡ vec_capacity out.old }
{
    if number < 10 {
        out.push_reserved(b'0' + number as u8);
        return;
    }
    out.push_reserved(b'0' + (number / 10) as u8);
    out.push_reserved(b'0' + (number % 10) as u8);
}

/// Writes a number of any size.
#[inline(never)]
fn push_many(out: &mut Vec<u8>, number: u64) -> Result<(), AllocError>
    ensures ok { OnOk result (out.new.items ≡ out.old.items ++ decimal number) }
    ensures err { OnErr result (out.new.items ≡ out.old.items) }
{
    let mut buffer = Buffer::new();
    out.extend_from_slice(buffer.format(number).as_bytes())
}

/// Writes a number of 32 bits in decimal.
#[inline(always)]
pub fn push_count(out: &mut Vec<u8>, count: u32) -> Result<(), AllocError>
    ensures ok { OnOk result (out.new.items ≡ out.old.items ++ decimal count) }
    ensures err { OnErr result (out.new.items ≡ out.old.items) }
{
    push_number(out, u64::from(count))
}

/// The digit that writes a number below 16 in hexadecimal.
fn hex_digit(value: u8) -> u8
    ensures { value < 16 → result ≡ digit_glyph true value }
{
    match value {
        0..=9 => b'0' + value,
        10..=15 => b'A' - 10 + value,
        _ => b'?',
    }
}

/// Writes an octet as two hexadecimal digits.
pub fn push_octet(out: &mut Vec<u8>, octet: u8) -> Result<(), AllocError>
    ensures { OnOk result (out.new.items ≡ out.old.items ++ octet_text octet) }
{
    out.push(hex_digit(octet / 16))?;
    Ok(out.push(hex_digit(octet % 16))?)
}

/// How many hexadecimal digits a number has.
fn hex_width(number: u64) -> u32
    ensures some { 1 ≤ result }
    ensures few { result ≤ 16 }
{
    let mut width = 1;
    for digits in 2..17 {
        if number >> (4 * (digits - 1)) > 0 {
            width = digits;
        }
    }
    width
}

/// Writes a number in hexadecimal, with no zeros in front.
pub fn push_hex(out: &mut Vec<u8>, number: u64) -> Result<(), AllocError>
    ensures { OnOk result (HasGrown out.old.items out.new.items) }
{
    out.extend_from_slice(b"0x")?;
    let width = hex_width(number);
    for at in 0..width {
        let digit = (number >> (4 * (width - 1 - at))) % 16;
        out.push(hex_digit(digit as u8))?;
    }
    Ok(())
}

/// The digits of the bits of an octet.
#[inline(always)]
fn octet_digits(octet: u8) -> [u8; 8]
    ensures { result ≡ digits_of (bits_of_octet octet) }
{
    [
        b'0' + octet / 128,
        b'0' + octet / 64 % 2,
        b'0' + octet / 32 % 2,
        b'0' + octet / 16 % 2,
        b'0' + octet / 8 % 2,
        b'0' + octet / 4 % 2,
        b'0' + octet / 2 % 2,
        b'0' + octet % 2,
    ]
}

/// Writes the digits of the octet of a block that begins at a place.
fn push_octet_bits(out: &mut Vec<u8>, block: &Bits, at: u32) -> Result<(), AllocError>
    requires whole { at % 8 ≡ 0 }
    requires within { at + 8 ≤ length block.now }
    ensures { OnOk result (out.new.items ≡ out.old.items ++ digits_of (take 8 (drop at block.now))) }
{
    let octet = block.octets()[(at / 8) as usize];
    out.extend_from_slice(&octet_digits(octet))?;
    Ok(())
}

/// Writes the digit of the bit of a block at a place.
fn push_bit(out: &mut Vec<u8>, block: &Bits, at: u32) -> Result<(), AllocError>
    requires { at < length block.now }
    ensures { OnOk result (out.new.items ≡ out.old.items ++ digits_of (take 1 (drop at block.now))) }
{
    out.push(b'0' + block.get(at))?;
    Ok(())
}

/// Writes some of the bits of a block that stand between two places, from the first one on. It answers how many these are.
fn push_next(out: &mut Vec<u8>, block: &Bits, at: u32, end: u32) -> Result<u32, AllocError>
    requires some { at < end }
    requires within { end ≤ length block.now }
    ensures some { IfOk result (λ count. 0 < count) }
    ensures within { IfOk result (λ count. at + count ≤ end) }
    ensures digits { IfOk result (λ count. out.new.items ≡ out.old.items ++ digits_of (take count (drop at block.now))) }
{
    if at % 8 == 0 && end - at >= 8 {
        push_octet_bits(out, block, at)?;
        return Ok(8);
    }
    push_bit(out, block, at)?;
    Ok(1)
}

/// Writes bits of a block as digits: so many from a place on, as far as the block goes.
pub fn push_bits(out: &mut Vec<u8>, block: &Bits, place: u32, bits: u32) -> Result<(), AllocError>
    ensures { OnOk result (out.new.items ≡ out.old.items ++ digits_of (take bits (drop place block.now))) }
{
    let end = block.len().min(place.saturating_add(bits));
    let mut at = place;
    while at < end {
        at += push_next(out, block, at, end)?;
    }
    Ok(())
}

/// Writes a place of a block as its octet and the bit in it.
pub fn push_place(out: &mut Vec<u8>, place: u32) -> Result<(), AllocError>
    ensures { OnOk result (out.new.items ≡ out.old.items ++ place_text place) }
{
    push_count(out, place / 8)?;
    out.push(b'.')?;
    push_count(out, place % 8)
}

/// Writes a space, but before the first of what it stands between.
fn push_gap(out: &mut Vec<u8>, is_first: bool) -> Result<(), AllocError>
    ensures { OnOk result (HasGrown out.old.items out.new.items) }
{
    if is_first {
        return Ok(());
    }
    Ok(out.push(b' ')?)
}

/// Writes the octets that hold these bits of a block, in groups of four, with dots for all other bits.
pub fn push_mask(out: &mut Vec<u8>, block: &Bits, place: u32, bits: u32) -> Result<(), AllocError>
    ensures { OnOk result (HasGrown out.old.items out.new.items) }
{
    let end = block.len().min(place.saturating_add(bits));
    let first = place / 8 * 2;
    let behind = (end + 7) / 8 * 2;
    for group in first..behind {
        push_gap(out, group == first)?;
        if group - first == MOST_GROUPS - 1 && behind - first > MOST_GROUPS {
            return out.extend_from_slice(b"...");
        }
        push_group(out, block, 4 * group, place, end)?;
    }
    Ok(())
}

/// Writes the four bits from a place on: those from `from` up to `end`, and dots for the others.
fn push_group(
    out: &mut Vec<u8>,
    block: &Bits,
    place: u32,
    from: u32,
    end: u32,
) -> Result<(), AllocError>
    ensures { OnOk result (HasGrown out.old.items out.new.items) }
{
    for at in place..place.saturating_add(4) {
        let sign = if from <= at && at < end && at < block.len() {
            b'0' + block.get(at)
        } else {
            b'.'
        };
        out.push(sign)?;
    }
    Ok(())
}

/// Writes what is answered to a block of so many bits that is refused at a place.
pub fn push_verdict(out: &mut Vec<u8>, place: u32, bits: u32) -> Result<(), AllocError>
    ensures { OnOk result (out.new.items ≡ out.old.items ++ verdict_text place bits) }
{
    out.extend_from_slice(b"no ")?;
    push_count(out, place)?;
    if place < bits {
        out.extend_from_slice(b" bit")
    } else {
        out.extend_from_slice(b" ended")
    }
}

/// Writes a byte in HTML.
fn push_html_byte(out: &mut Vec<u8>, byte: u8) -> Result<(), AllocError>
    ensures { OnOk result (out.new.items ≡ out.old.items ++ html_byte byte) }
{
    match byte {
        b'&' => out.extend_from_slice(b"&amp;"),
        b'<' => out.extend_from_slice(b"&lt;"),
        b'>' => out.extend_from_slice(b"&gt;"),
        b'"' => out.extend_from_slice(b"&quot;"),
        other => Ok(out.push(other)?),
    }
}

/// Writes text in HTML.
pub fn push_html(out: &mut Vec<u8>, text: &[u8]) -> Result<(), AllocError>
    ensures { OnOk result (out.new.items ≡ out.old.items ++ html_text text.now) }
{
    for byte in text {
        push_html_byte(out, *byte)?;
    }
    Ok(())
}
