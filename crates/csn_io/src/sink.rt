ghost use Rattle.std.specs.Prelude.{◌≡◌, ℕ, ◌<◌, ◌≤◌, List, Option, length, take, ⊤};
ghost use Rattle.csn_io.specs.Faults.{Keeps, Rose};
ghost use Rattle.csn_io.specs.Put.{IfTook, UnlessTook, OnFailed, UnlessFailed, Appended, FlushedAll, KeepsFlushed};
ghost use Rattle.csn_io.specs.declared.sink.Put.TheVariants.{Failed};

/// What came of handing bytes to a sink, or of flushing it.
#[derive(Clone, Copy, Debug, PartialEq, Eq)]
pub enum Put {
    /// So many bytes were taken from the front of the piece: at least one, and none at a flush.
    Took(usize),
    /// The outside is at fault, and the sink's count of faults shows it.
    Failed,
    NoMemory,
}

/// A place to put bytes in their order. A sink of which a call has failed is not asked again.
pub trait Sink {
    ghost use Rattle.csn_io.specs.declared.sink.Put.{Put};

    /// All bytes that were taken, for a sink that tells them.
    ghost taken: { Self → Option (List ℕ) };

    /// How many of these bytes are flushed.
    ghost flushed: { Self → Option ℕ };

    /// How many faults there were so far.
    ghost faults: { Self → ℕ };

    /// No call fails any more.
    ghost steady: { Self → Type 0 };

    /// What a form promises of a put beyond what every sink does: of itself before the call, the
    /// length of the piece, the answer, and itself afterwards.
    ghost put_gives: { Self → ℕ → Put → Self → Type 0 } = { λ _ _ _ _. ⊤ };

    /// The same of a flush.
    ghost flush_gives: { Self → Put → Self → Type 0 } = { λ _ _ _. ⊤ };

    /// Takes some bytes from the front of the piece.
    fn put(&mut self, piece: &[u8]) -> Put
        requires some { 0 < length piece.now }
        requires unfailed { faults self.old ≡ 0 }
        ensures appended { IfTook result (λ n. Appended (taken self.old) (taken self.new) (take n piece.now)) }
        ensures at_least_one { IfTook result (λ n. 0 < n) }
        ensures within { IfTook result (λ n. n ≤ length piece.now) }
        ensures taken_stays { UnlessTook result (taken self.new ≡ taken self.old) }
        ensures flushed_stays { KeepsFlushed (flushed self.old) (flushed self.new) }

        // Failed comes only with a fault, and nothing else is a fault.
        ensures failed { OnFailed result (Rose (faults self.old) (faults self.new)) }
        ensures no_fault { UnlessFailed result (faults self.new ≡ faults self.old) }
        ensures outside { Keeps (steady self.old) (steady self.new) (faults self.old) (faults self.new) (result ≡ Failed) }
        ensures steady_not_failed { OnFailed result (steady self.old → ⊥) }

        ensures gives { put_gives self.old (length piece.now) result self.new };

    /// Hands on what was taken. Whatever it answers, no further byte is taken.
    fn flush(&mut self) -> Put
        requires unfailed { faults self.old ≡ 0 }
        ensures taken_stays { taken self.new ≡ taken self.old }
        ensures took_none { IfTook result (λ n. n ≡ 0) }
        ensures flushed_all { IfTook result (λ _. FlushedAll (taken self.new) (flushed self.new)) }
        ensures flushed_stays { KeepsFlushed (flushed self.old) (flushed self.new) }

        // Failed comes only with a fault, and nothing else is a fault.
        ensures failed { OnFailed result (Rose (faults self.old) (faults self.new)) }
        ensures no_fault { UnlessFailed result (faults self.new ≡ faults self.old) }
        ensures outside { Keeps (steady self.old) (steady self.new) (faults self.old) (faults self.new) (result ≡ Failed) }
        ensures steady_not_failed { OnFailed result (steady self.old → ⊥) }

        ensures gives { flush_gives self.old result self.new };
}
