ghost use Rattle.std.specs.Prelude.{◌≡◌, ◌≤◌};
ghost use Rattle.csn_bits.specs.Octets.{pattern};

/// The padding pattern, the octet that fills what is left of a block (3GPP TS 44.060).
const PADDING: u8 = 0x2B;

/// The bit of the padding pattern at an octet position, which counts from 0 at the most significant
/// bit: 0 0 1 0 1 0 1 1.
pub fn pattern_bit(octet: u8) -> u8
    requires { octet ≤ 7 }
    ensures value { result ≡ pattern octet }
    ensures bit { result ≤ 1 }
{
    (PADDING >> (7 - octet)) % 2
}
