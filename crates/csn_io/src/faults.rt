ghost use Rattle.std.specs.Prelude.{◌≡◌, ◌≤◌, Some, OnOk, OnErr};
ghost use Rattle.csn_io.specs.Faults.{Rose, name_of};

use std::alloc::{AllocError, Global};
use std::marker::Model;

/// A count of faults, which stays at its last value.
#[derive(Drop)]
pub struct Faults {
    count: u64,
}

impl Model for Faults {
    ghost use Rattle.std.specs.Prelude.{ℕ};

    ghost Value = { ℕ };

    ghost view = { λ f. f.count };
}

impl Faults {
    pub fn none() -> Faults
        ensures { result ≡ 0 }
    {
        Faults { count: 0 }
    }

    pub fn rise(&mut self)
        ensures rose { Rose self.old self.new }
        ensures never_falls { self.old ≤ self.new }
    {
        self.count = self.count.saturating_add(1);
    }
}

/// The faults of a shelf: how many, and the name that was asked for at the last one.
#[derive(Drop)]
pub struct NamedFaults {
    pub count: Faults,
    pub last: Option<String>,
}

impl NamedFaults {
    pub fn none() -> NamedFaults
        ensures count { result.count ≡ 0 }
        ensures last { name_of result.last ≡ None }
    {
        NamedFaults {
            count: Faults::none(),
            last: None,
        }
    }

    /// Where no memory is found to keep the name, there was no fault.
    pub fn rise(&mut self, alloc: Global, name: &str) -> Result<(), AllocError>
        ensures rose { OnOk result (Rose self.old.count self.new.count) }
        ensures name { OnOk result (name_of self.new.last ≡ Some name.now) }
        ensures no_memory { OnErr result (self.new ≡ self.old) }
        ensures never_falls { self.old.count ≤ self.new.count }
    {
        self.last = Some(String::from_str(alloc, name)?);
        self.count.rise();
        Ok(())
    }
}
