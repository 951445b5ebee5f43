//! The digits of block lines.
ghost use Rattle.std.specs.Prelude.{◌≡◌, ◌+◌, ◌*◌, ◌<◌, ◌≤◌, [], ◌∷◌, length, take, IfSome, Some};
ghost use Rattle.std.specs.Option.{ForSome};
ghost use Rattle.hex.specs.Hex.{hex_digit_value};
ghost use Rattle.csn_bits.specs.Feed.{AreDigits};
ghost use Rattle.csn_bits.specs.Line.{bits_of_tail, octets_of_digits};

/// The value of each byte that is a digit in either case, and 255 of any other. One digit is as likely as another, so that the
/// processor could not foresee a branch on them.
static DIGIT_VALUES: [u8; 256] = [
    255, 255, 255, 255, 255, 255, 255, 255, 255, 255, 255, 255, 255, 255, 255, 255, 255, 255, 255,
    255, 255, 255, 255, 255, 255, 255, 255, 255, 255, 255, 255, 255, 255, 255, 255, 255, 255, 255,
    255, 255, 255, 255, 255, 255, 255, 255, 255, 255, 0, 1, 2, 3, 4, 5, 6, 7, 8, 9, 255, 255, 255,
    255, 255, 255, 255, 10, 11, 12, 13, 14, 15, 255, 255, 255, 255, 255, 255, 255, 255, 255, 255,
    255, 255, 255, 255, 255, 255, 255, 255, 255, 255, 255, 255, 255, 255, 255, 255, 10, 11, 12, 13,
    14, 15, 255, 255, 255, 255, 255, 255, 255, 255, 255, 255, 255, 255, 255, 255, 255, 255, 255,
    255, 255, 255, 255, 255, 255, 255, 255, 255, 255, 255, 255, 255, 255, 255, 255, 255, 255, 255,
    255, 255, 255, 255, 255, 255, 255, 255, 255, 255, 255, 255, 255, 255, 255, 255, 255, 255, 255,
    255, 255, 255, 255, 255, 255, 255, 255, 255, 255, 255, 255, 255, 255, 255, 255, 255, 255, 255,
    255, 255, 255, 255, 255, 255, 255, 255, 255, 255, 255, 255, 255, 255, 255, 255, 255, 255, 255,
    255, 255, 255, 255, 255, 255, 255, 255, 255, 255, 255, 255, 255, 255, 255, 255, 255, 255, 255,
    255, 255, 255, 255, 255, 255, 255, 255, 255, 255, 255, 255, 255, 255, 255, 255, 255, 255, 255,
    255, 255, 255, 255, 255, 255, 255, 255, 255, 255, 255, 255, 255, 255, 255, 255, 255, 255, 255,
    255, 255, 255,
];

/// The value of a digit in either case, below 16; None where the byte is no digit.
#[inline]
pub fn digit_value(byte: u8) -> Option<u8>
    ensures value { result ≡ hex_digit_value byte }
    ensures small { ForSome result (λ v. v < 16) }
{
    let value = DIGIT_VALUES[usize::from(byte)];
    if value < 16 { Some(value) } else { None }
}

/// The octet that two digits write.
#[inline(always)]
fn octet_of(high: u8, low: u8) -> Option<u8>
    ensures { IfSome result (λ octet. AreDigits (high ∷ low ∷ []) × (octet ∷ [] ≡ octets_of_digits (high ∷ low ∷ []))) }
{
    let (Some(first), Some(second)) = (digit_value(high), digit_value(low)) else {
        return None;
    };
    Some(16 * first + second)
}

/// Writes the octets of the whole pairs of digits that some bytes begin with into the front of the room, and answers how
/// many there are.
pub fn decode_pairs(bytes: &[u8], room: &mut [u8]) -> usize
    requires { length bytes.now ≤ 2 * length room.old + 1 }
    ensures digits { AreDigits (take (2 * result) bytes.now) }
    ensures octets { take result room.new ≡ octets_of_digits (take (2 * result) bytes.now) }
    ensures within { 2 * result ≤ length bytes.now }
    ensures room { length room.new ≡ length room.old }
{
    let count = bytes.len() / 2;
    for at in 0..count {
        let Some(octet) = octet_of(bytes[2 * at], bytes[2 * at + 1]) else {
            return at;
        };
        room[at] = octet;
    }
    count
}

/// How many bits of the last octet belong to a block, where its tail has this one byte.
pub fn counted_bits(byte: u8) -> Option<u8>
    ensures value { result ≡ bits_of_tail (Some (byte ∷ [])) }
    ensures few { ForSome result (λ n. (1 ≤ n) × (n ≤ 8)) }
{
    match byte {
        b'1'..=b'7' => Some(byte - b'0'),
        _ => None,
    }
}
