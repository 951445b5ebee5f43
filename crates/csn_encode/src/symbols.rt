ghost use Rattle.std.specs.Prelude.{◌+◌, ◌<◌, ◌↔◌, IsTrue, length};
ghost use Rattle.csn_desc.specs.Spelled.{IsSpare};
ghost use Rattle.csn_desc.specs.declared.reading.Reading.TheVariants.{Sent};

use csn_bits::Bits;
use csn_desc::Symbol;

/// Whether each of the bits, the first of which stands at the place, is the one that the symbol stands for.
pub(crate) fn are_sent(symbol: Symbol, bits: &Bits, place: u32) -> bool
    requires { place + length bits.now < 4294967296 }
    ensures { IsTrue result ↔ IsSpare Sent symbol place bits.now }
{
    for at in 0..bits.len() {
        if bits.get(at) != symbol.bit(place + at) {
            return false;
        }
    }
    true
}
