ghost use Rattle.std.specs.Prelude.{◌≡◌};

/// How a run ended.
#[derive(Clone, Copy, Debug, PartialEq, Eq)]
pub enum Ended {
    /// The whole job was done, and no line was refused.
    Done,
    /// The input was read to its end, and some line of it was refused.
    SomeRefused,
    /// The words are no row of the command table.
    Usage,
    /// The text is no description, or its names cannot be put in.
    BadDescription,
    /// Bounded look-ahead does not decide the description.
    NotCertified,
    /// A file or the input could not be read.
    ReadFault,
    /// The output could not be written.
    WriteFault,
    /// There was no memory.
    NoMemory,
    /// A description or the input is longer than its limit.
    TooLong,
}

impl Ended {
    ghost use Rattle.csn_plan.specs.Ended.{status_of};

    /// The exit status of the program.
    pub fn status(&self) -> u8
        ensures { result ≡ status_of self.now }
    {
        *self as u8
    }
}
