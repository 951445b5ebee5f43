ghost use Rattle.std.specs.Prelude.{◌≡◌, ◌*◌, ◌≤◌, ◌++◌, OnOk};
ghost use Rattle.std.specs.Fmt.{decimal};
ghost use Rattle.hex.specs.Hex.{encode_upper};
ghost use Rattle.csn_bits.specs.Octets.{octets_of};
ghost use Rattle.csn_bits.specs.Numbers.{low_bits};
ghost use Rattle.csn_movetext.specs.Kept.{Extends};

use crate::room::room;
use csn_bits::NoMemory;
use itoa::Buffer;

/// The most digits of a number: two for each octet.
const MOST_DIGITS: usize = 16;

/// Adds the digits of the last octets of a number, in upper case.
pub(crate) fn push_octets(out: &mut Vec<u8>, number: u64, count: u32) -> Result<(), NoMemory>
    requires few { count ≤ 8 }
    ensures digits { OnOk result (out.new.items
        ≡ out.old.items ++ encode_upper (octets_of (low_bits (8 * count) number))) }
    ensures extends { Extends out.old.items out.new.items }
{
    let table = b"0123456789ABCDEF";
    let mut digits = [0; MOST_DIGITS];
    let mut first = MOST_DIGITS;
    let mut rest = number;
    for _ in 0..count {
        let octet = (rest % 256) as u8;
        rest /= 256;
        first -= 2;
        digits[first + 1] = table[usize::from(octet % 16)];
        digits[first] = table[usize::from(octet / 16)];
    }
    out.extend_from_slice(&digits[first..])?;
    Ok(())
}

/// Adds a number in decimal.
#[tactic(auto, using(crate::proofs::Decimals::one_digit, crate::proofs::Decimals::two_digits))]
pub(crate) fn push_number(out: &mut Vec<u8>, number: u64) -> Result<(), NoMemory>
    ensures digits { OnOk result (out.new.items ≡ out.old.items ++ decimal number) }
    ensures extends { Extends out.old.items out.new.items }
{
    if number < 10 {
        room(out, 1)?;
        out.push_reserved(b'0' + number as u8);
        return Ok(());
    }
    if number < 100 {
        room(out, 2)?;
        out.push_reserved(b'0' + (number / 10) as u8);
        out.push_reserved(b'0' + (number % 10) as u8);
        return Ok(());
    }
    let mut buffer = Buffer::new();
    out.extend_from_slice(buffer.format(number).as_bytes())?;
    Ok(())
}
