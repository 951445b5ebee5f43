//! The bits of literals and of what is spare, as numbers.

ghost use Rattle.std.specs.Prelude.{◌≡◌, ◌+◌, ◌^◌, ◌<◌, ◌≤◌, length, take, drop, replicate};
ghost use Rattle.csn_desc.specs.Spelled.{spelled as bits_of};
ghost use Rattle.csn_bits.specs.Numbers.{low_bits};

use crate::source::MOST_RUN;
use csn_desc::{Run, Symbol};

/// The number that `count` symbols of a literal write, from the symbol `at` on, where this one stands at the
/// place.
pub(crate) fn spelled(run: &Run, at: u32, count: u32, place: u32) -> u64
    requires few { count ≤ MOST_RUN }
    requires within { at + count ≤ length run.now }
    requires small { at + count < 4294967296 }
    requires fits { place + count < 4294967296 }
    ensures value { low_bits count result ≡ bits_of (take count (drop at run.now)) place }
    ensures small { result < 2 ^ count }
{
    let mut number = 0;
    for k in 0..count {
        number = 2 * number + run.get(at + k).bit(place + k) as u64;
    }
    number
}

/// The number that the symbol writes `count` times, from the place on.
pub(crate) fn repeated(symbol: Symbol, count: u32, place: u32) -> u64
    requires few { count ≤ MOST_RUN }
    requires fits { place + count < 4294967296 }
    ensures value { low_bits count result ≡ bits_of (replicate count symbol) place }
    ensures small { result < 2 ^ count }
{
    (many_times(symbol) >> (63 - place % 8 - count)) % (1 << count)
}

/// The number that the symbol writes 63 times from an octet position 0 on: from each octet position there are as
/// many as may be asked for.
fn many_times(symbol: Symbol) -> u64
    ensures { low_bits 63 result ≡ bits_of (replicate 63 symbol) 0 }
{
    match symbol {
        Symbol::Zero => 0,
        Symbol::One => u64::MAX >> 1,
        Symbol::Low => 0x2B2B_2B2B_2B2B_2B2B >> 1,
        Symbol::High => 0xD4D4_D4D4_D4D4_D4D4 >> 1,
    }
}
