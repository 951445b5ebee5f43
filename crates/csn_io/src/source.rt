ghost use Rattle.std.specs.Prelude.{◌≡◌, ◌≢◌, ℕ, ◌<◌, ◌≤◌, List, [], Option, Some, length, take, ⊤};
ghost use Rattle.csn_io.specs.Faults.{Keeps, Rose};
ghost use Rattle.csn_io.specs.Got.{IfBytes, OnEnd, OnFailed, UnlessBytes, Gave, NothingLeft};
ghost use Rattle.csn_io.specs.declared.source.Got.TheVariants.{Failed};

/// What came of asking a source for bytes.
#[derive(Clone, Copy, Debug, PartialEq, Eq)]
pub enum Got {
    /// Nothing is left.
    End,
    /// So many bytes, at least one, now stand at the front of the buffer.
    Bytes(usize),
    /// The outside is at fault, and the source's count of faults shows it.
    Failed,
}

/// Bytes that are taken in their order.
pub trait Source {
    ghost use Rattle.csn_io.specs.declared.source.Got.{Got};

    /// The bytes that are left, for a source that tells them.
    ghost left: { Self → Option (List ℕ) };

    /// How many faults there were so far.
    ghost faults: { Self → ℕ };

    /// No call fails any more.
    ghost steady: { Self → Type 0 };

    /// What a form promises of a call beyond what every source does: of itself before the call, the
    /// room, the answer, and itself afterwards.
    ghost take_gives: { Self → ℕ → Got → Self → Type 0 } = { λ _ _ _ _. ⊤ };

    /// Moves the next bytes to the front of `into`. What stands there behind them is left open.
    fn take(&mut self, into: &mut [u8]) -> Got
        requires { 0 < length into.old }
        ensures gave { IfBytes result (λ n. Gave (left self.old) (left self.new) (take n into.new)) }
        ensures at_least_one { IfBytes result (λ n. 0 < n) }
        ensures within { IfBytes result (λ n. n ≤ length into.new) }

        // End comes only where nothing is left, and Bytes only where something is.
        ensures end { OnEnd result (NothingLeft (left self.old)) }
        ensures not_at_end { IfBytes result (λ _. left self.old ≢ Some []) }
        ensures left_stays { UnlessBytes result (left self.new ≡ left self.old) }

        // Failed comes only with a fault, and nothing else is a fault.
        ensures failed { OnFailed result (Rose (faults self.old) (faults self.new)) }
        ensures outside { Keeps (steady self.old) (steady self.new) (faults self.old) (faults self.new) (result ≡ Failed) }
        ensures steady_not_failed { OnFailed result (steady self.old → ⊥) }

        ensures gives { take_gives self.old (length into.old) result self.new };
}
