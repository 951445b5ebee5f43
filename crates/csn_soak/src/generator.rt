//! The numbers and the blocks of the generator.

ghost use Rattle.std.specs.Prelude.{◌≡◌};
ghost use Rattle.csn_soak.specs.Generator.{next_number};

/// The factor of the sequence of numbers.
const FACTOR: u64 = 6_364_136_223_846_793_005;

/// What is added to it.
const SUMMAND: u64 = 1_442_695_040_888_963_407;

/// The number behind a number.
pub fn next(number: u64) -> u64
    ensures { result ≡ next_number number }
{
    number.wrapping_mul(FACTOR).wrapping_add(SUMMAND)
}
