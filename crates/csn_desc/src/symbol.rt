use csn_bits::pattern_bit;

/// What a literal writes for one bit. `Low` is the bit of the padding pattern at its octet position
/// and `High` is the other bit, as 3GPP TS 44.060 uses the letters L and H.
#[derive(Clone, Copy, Debug, PartialEq, Eq, Hash)]
pub enum Symbol {
    Zero,
    One,
    Low,
    High,
}

impl Symbol {
    ghost use Rattle.std.specs.Prelude.{◌≡◌, ◌≤◌};
    ghost use Rattle.csn_desc.specs.Spelled.{symbol_bit};

    /// The bit that the symbol stands for at a place.
    pub fn bit(self, place: u32) -> u8
        ensures value { result ≡ symbol_bit self place }
        ensures bit { result ≤ 1 }
    {
        match self {
            Symbol::Zero => 0,
            Symbol::One => 1,
            Symbol::Low => pattern_bit((place % 8) as u8),
            Symbol::High => 1 - pattern_bit((place % 8) as u8),
        }
    }
}
