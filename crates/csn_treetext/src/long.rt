//! Leaves of more than 64 bits.

ghost use Rattle.std.specs.Prelude.{◌≡◌, ◌⊎◌, ◌+◌, ◌*◌, ◌<◌, ◌≤◌, ◌==◌, true, false, [], List, ℕ, length, slice_index, Some, None, IfOk, IfSome, IfNone};
ghost use Rattle.csn_bits.specs.declared.bits.TheConstants.{MOST_BITS};
ghost use Rattle.csn_treetext.specs.Text.{is_short};
ghost use Rattle.csn_treetext.specs.declared.bounds.TheConstants.{MOST_OCTETS};
ghost use Rattle.csn_treetext.specs.declared.stack.Frame.{Frame};
ghost use Rattle.csn_treetext.specs.declared.version.Version.TheVariants.{First, Second};
ghost use Rattle.csn_treetext.specs.reader.Machine.{HasRoom, cut_octets, is_bit_digit, state, upper_value, with_tree};
ghost use Rattle.csn_treetext.specs.reader.Mode.{Octets, Slash, Bare};
ghost use Rattle.csn_treetext.specs.reader.Reading.{Comes, Stands, Takes};

use crate::bounds::MOST_OCTETS;
use crate::closing::close;
use crate::decimals::{byte_at, stands_at};
use crate::leaf::{is_short, last_octet, leaf, octets_leaf, push_bit};
use crate::next::Taken;
use crate::source::Source;
use crate::stack::Stack;
use csn_bits::{Bits, MOST_BITS, NoMemory, digit_value};
use std::alloc::Global;

// The fewest octets of a leaf that is written as a block line: they hold more than 64 bits, whatever
// bits of the last one belong to it.
const FEWEST_OCTETS: usize = 9;

// The value of a hexadecimal digit in upper case.
fn upper_value(byte: u8) -> Option<u8>
    ensures value { result ≡ upper_value byte }
    ensures small { IfSome result (λ value. value < 16) }
{
    if byte >= b'a' {
        return None;
    }
    digit_value(byte)
}

// The value of the hexadecimal digit at a place, if one stands there.
fn digit_at(text: &[u8], at: usize) -> Option<u8>
    ensures some { IfSome result (λ value. (at < length text.now) × (upper_value (slice_index text.now at) ≡ Some value)) }
    ensures small { IfSome result (λ value. value < 16) }
    ensures none { IfNone result (at < length text.now → upper_value (slice_index text.now at) ≡ None) }
{
    upper_value(byte_at(text, at)?)
}

// The octet whose two digits stand at a place.
fn octet_at(text: &[u8], at: usize) -> Option<u8>
    ensures some { IfSome result (λ octet. (at + 1 < length text.now) × ((high low : ℕ) × (upper_value (slice_index text.now at) ≡ Some high)
        × (upper_value (slice_index text.now (at + 1)) ≡ Some low) × (octet ≡ 16 * high + low))) }
    ensures none { IfNone result (at + 1 < length text.now
        → (upper_value (slice_index text.now at) ≡ None) ⊎ (upper_value (slice_index text.now (at + 1)) ≡ None)) }
{
    let high = digit_at(text, at)?;
    let low = digit_at(text, at + 1)?;
    Some(16 * high + low)
}

// Octets in hexadecimal digits.
struct OctetRun {
    octets: Vec<u8>,
    end: usize,
}

// The octets whose digits stand from a place on, and where they end.
fn octet_run(alloc: Global, text: &[u8], from: usize) -> Result<OctetRun, NoMemory>
    requires { from ≤ length text.now }
    ensures comes { IfOk result (λ run. (stack : List Frame) → Comes Second text.now from (state (Octets [] None) stack)
        → Comes Second text.now run.end (state (Octets run.octets.items None) stack)) }
    ensures stops { IfOk result (λ run. (length run.octets.items ≡ MOST_OCTETS) ⊎ (run.end + 1 < length text.now
        → (upper_value (slice_index text.now run.end) ≡ None) ⊎ (upper_value (slice_index text.now (run.end + 1)) ≡ None))) }
    ensures from { IfOk result (λ run. from ≤ run.end) }
    ensures within { IfOk result (λ run. run.end ≤ length text.now) }
    ensures few { IfOk result (λ run. length run.octets.items ≤ MOST_OCTETS) }
{
    let mut octets = Vec::new(alloc);
    let mut end = from;
    while octets.len() < MOST_OCTETS {
        match octet_at(text, end) {
            Some(octet) => octets.push(octet)?,
            None => return Ok(OctetRun { octets, end }),
        }
        end += 2;
    }
    Ok(OctetRun { octets, end })
}

/// Behind `x`: the block line of a leaf.
pub fn block_line(source: Source, stack: &mut Stack, from: usize) -> Result<Taken, NoMemory>
    requires within { from ≤ length source.text.now }
    requires second { source.version ≡ Second }
    requires room { HasRoom stack.old }
    requires comes { Comes Second source.text.now from (state (Octets [] None) stack.old) }
    ensures { IfOk result (Takes source.entry.version source.entry.text.now from stack.new) }
{
    let OctetRun { octets, end } = octet_run(source.alloc, source.text, from)?;
    block_line_end(source, stack, octets.as_slice(), end)
}

// Behind the octets of a block line, which end at a place.
fn block_line_end(
    source: Source,
    stack: &mut Stack,
    octets: &[u8],
    end: usize,
) -> Result<Taken, NoMemory>
    requires within { end ≤ length source.text.now }
    requires second { source.version ≡ Second }
    requires room { HasRoom stack.old }
    requires few { length octets.now ≤ MOST_OCTETS }
    requires comes { Comes Second source.text.now end (state (Octets octets.now None) stack.old) }
    requires stops { (length octets.now ≡ MOST_OCTETS) ⊎ (end + 1 < length source.text.now
        → (upper_value (slice_index source.text.now end) ≡ None) ⊎ (upper_value (slice_index source.text.now (end + 1)) ≡ None)) }
    ensures { IfOk result (Takes source.entry.version source.entry.text.now end stack.new) }
{
    let text = source.text;
    let count = octets.len();
    if digit_at(text, end).is_some() {
        // the digit has no partner, or is one of an octet too many
        let place = if count < MOST_OCTETS { end + 1 } else { end };
        return Ok(Taken::Refused(place));
    }
    if count < FEWEST_OCTETS {
        return Ok(Taken::Refused(end));
    }
    if stands_at(text, end, b'/') {
        return slash(source, stack, octets, end);
    }
    octets_end(source, stack, octets, 8, end)
}

// The leaf of octets of whose last one the first `used` bits belong to it, and which ends at a place.
fn octets_end(
    source: Source,
    stack: &mut Stack,
    octets: &[u8],
    used: u8,
    end: usize,
) -> Result<Taken, NoMemory>
    requires within { end ≤ length source.text.now }
    requires room { HasRoom stack.old }
    requires some { 1 ≤ length octets.now }
    requires few { length octets.now ≤ MOST_OCTETS }
    requires used { used ≤ 8 }
    requires stands { Stands source.version source.text.now end (with_tree stack.old (cut_octets octets.now used)) }
    ensures { IfOk result (Takes source.entry.version source.entry.text.now end stack.new) }
{
    let tree = octets_leaf(source.alloc, octets, used)?;
    close(source, stack, tree, end)
}

// How many bits of the last octet the digit at a place says to belong to the leaf.
fn used_at(text: &[u8], at: usize) -> Option<u8>
    ensures some { IfSome result (λ used. (at < length text.now) × (slice_index text.now at ≡ 48 + used) × (1 ≤ used) × (used ≤ 7)) }
    ensures none { IfNone result (at < length text.now → (slice_index text.now at < 49) ⊎ (55 < slice_index text.now at)) }
{
    match byte_at(text, at)? {
        byte @ b'1'..=b'7' => Some(byte - b'0'),
        _ => None,
    }
}

// The tail of a block line, whose `/` stands at a place.
fn slash(source: Source, stack: &mut Stack, octets: &[u8], at: usize) -> Result<Taken, NoMemory>
    requires within { at < length source.text.now }
    requires second { source.version ≡ Second }
    requires room { HasRoom stack.old }
    requires slash { (slice_index source.text.now at == 47) ≡ true }
    requires some { 9 ≤ length octets.now }
    requires few { length octets.now ≤ MOST_OCTETS }
    requires comes { Comes Second source.text.now at (state (Octets octets.now None) stack.old) }
    ensures { IfOk result (Takes source.entry.version source.entry.text.now at stack.new) }
{
    if last_octet(octets) % 2 != 0 {
        return Ok(Taken::Refused(at));
    }
    let Some(used) = used_at(source.text, at + 1) else {
        return Ok(Taken::Refused(at + 1));
    };
    if last_octet(octets) % (1 << (8 - used)) != 0 {
        return Ok(Taken::Refused(at + 1));
    }
    octets_end(source, stack, octets, used, at + 2)
}

// The bit whose digit stands at a place.
fn bit_at(text: &[u8], at: usize) -> Option<u8>
    ensures some { IfSome result (λ bit. (at < length text.now) × (slice_index text.now at ≡ 48 + bit) × (bit ≤ 1)) }
    ensures none { IfNone result (at < length text.now → (slice_index text.now at < 48) ⊎ (49 < slice_index text.now at)) }
{
    match byte_at(text, at)? {
        byte @ b'0'..=b'1' => Some(byte - b'0'),
        _ => None,
    }
}

// Bits as digits.
struct BitRun {
    bits: Bits,
    end: usize,
}

// The bits whose digits stand from a place on, and where they end.
fn bit_run(alloc: Global, text: &[u8], from: usize) -> Result<BitRun, NoMemory>
    requires { from ≤ length text.now }
    ensures comes { IfOk result (λ run. (stack : List Frame) → Comes First text.now from (state (Bare []) stack)
        → Comes First text.now run.end (state (Bare run.bits) stack)) }
    ensures stops { IfOk result (λ run. (length run.bits ≡ MOST_BITS)
        ⊎ (run.end < length text.now → (slice_index text.now run.end < 48) ⊎ (49 < slice_index text.now run.end))) }
    ensures from { IfOk result (λ run. from ≤ run.end) }
    ensures within { IfOk result (λ run. run.end ≤ length text.now) }
{
    let mut bits = Bits::new(alloc);
    let mut end = from;
    while bits.len() < MOST_BITS {
        match bit_at(text, end) {
            Some(bit) => push_bit(&mut bits, bit)?,
            None => return Ok(BitRun { bits, end }),
        }
        end += 1;
    }
    Ok(BitRun { bits, end })
}

// Whether the bits whose digits end at a place are a leaf that is written so.
fn is_leaf(text: &[u8], bits: &Bits, end: usize) -> bool
    ensures long { result ≡ true → is_short bits.now ≡ false }
    ensures ends { result ≡ true → end < length text.now → is_bit_digit (slice_index text.now end) ≡ false }
    ensures no { result ≡ false → (is_short bits.now ≡ true) ⊎ ((bit : ℕ) × (end < length text.now) × (slice_index text.now end ≡ 48 + bit) × (bit ≤ 1)) }
{
    match bit_at(text, end) {
        Some(_) => false,
        None => !is_short(bits),
    }
}

/// Behind `b` in the first version: the bits of a leaf as digits.
pub fn bit_digits(source: Source, stack: &mut Stack, from: usize) -> Result<Taken, NoMemory>
    requires within { from ≤ length source.text.now }
    requires first { source.version ≡ First }
    requires room { HasRoom stack.old }
    requires comes { Comes First source.text.now from (state (Bare []) stack.old) }
    ensures { IfOk result (Takes source.entry.version source.entry.text.now from stack.new) }
{
    let BitRun { bits, end } = bit_run(source.alloc, source.text, from)?;
    if !is_leaf(source.text, &bits, end) {
        return Ok(Taken::Refused(end));
    }
    close(source, stack, leaf(bits), end)
}
