ghost use Rattle.std.specs.Prelude.{◌≡◌, ◌^◌, ◌<◌, ◌↔◌, IsTrue};

/// Counts calls from 0, and knows which of them are to fail.
#[derive(Drop)]
pub struct Calls {
    pub made: u64,
    pub failing: Vec<u32>,
}

impl Calls {
    ghost use Rattle.csn_io.specs.Calls.{IsPlanned, IsDue, after_call};

    pub fn new(failing: Vec<u32>) -> Calls
        ensures { IsPlanned result failing.items }
    {
        Calls { made: 0, failing }
    }

    /// Counts the next call, and tells whether it is to fail.
    pub fn next_fails(&mut self) -> bool
        ensures due { IsTrue result ↔ IsDue self.old }
        ensures counted { self.new ≡ after_call self.old }
        ensures in_range { IsTrue result → self.old.made < 2 ^ 32 }
    {
        let number = self.made;
        self.made = number.saturating_add(1);
        self.failing
            .iter()
            .any(|&failing| u64::from(failing) == number)
    }
}
