ghost use Rattle.std.specs.Prelude.{◌≡◌, ◌%◌, ◌<◌, ◌↔◌, IsTrue};
ghost use Rattle.csn_sample.specs.Generator.{next_state, mixed};

/// What is added to the state each time.
const STEP: u64 = 0x9E37_79B9_7F4A_7C15;

/// The factors of the mixing.
const FIRST: u64 = 0xBF58_476D_1CE4_E5B9;

const SECOND: u64 = 0x94D0_49BB_1331_11EB;

/// Numbers that look like chance, and are the same for the same seed on every machine: SplitMix64 (Steele, Lea and
/// Flood). They are for tests, and keep no secret.
#[derive(Clone, Copy, Debug, Drop, PartialEq, Eq)]
pub struct Generator {
    /// The seed, moved on by each number.
    pub state: u64,
}

impl Generator {
    /// The numbers of a seed.
    pub fn new(seed: u64) -> Generator
        ensures { result.state ≡ seed }
    {
        Generator { state: seed }
    }

    /// The next number.
    pub fn number(&mut self) -> u64
        ensures state { self.new.state ≡ next_state self.old.state }
        ensures number { result ≡ mixed (next_state self.old.state) }
    {
        self.state = self.state.wrapping_add(STEP);
        let once = (self.state ^ (self.state >> 30)).wrapping_mul(FIRST);
        let twice = (once ^ (once >> 27)).wrapping_mul(SECOND);
        twice ^ (twice >> 31)
    }

    /// A number below another.
    pub(crate) fn below(&mut self, end: u64) -> u64
        requires { 0 < end }
        ensures state { self.new.state ≡ next_state self.old.state }
        ensures number { result ≡ mixed (next_state self.old.state) % end }
        ensures below { result < end }
    {
        self.number() % end
    }

    /// Whether one chance of so many came true.
    pub(crate) fn one_in(&mut self, many: u64) -> bool
        requires { 0 < many }
        ensures state { self.new.state ≡ next_state self.old.state }
        ensures number { IsTrue result ↔ (mixed (next_state self.old.state) % many ≡ 0) }
    {
        self.below(many) == 0
    }
}
