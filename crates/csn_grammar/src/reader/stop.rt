ghost use Rattle.std.specs.Prelude.{◌≡◌};
ghost use Rattle.csn_grammar.specs.declared.reader.stop.Stop.TheVariants.{NoMemory as no_memory};

use csn_bits::NoMemory;

/// Why the reader stops: a token that cannot follow, or want of memory.
#[derive(Clone, Copy, Debug, Drop, PartialEq, Eq)]
pub enum Stop {
    Refused,
    NoMemory,
}

impl From<NoMemory> for Stop {
    ghost from_gives = { λ _ e. e ≡ no_memory };

    fn from(_e: NoMemory) -> Stop {
        Stop::NoMemory
    }
}
