use std::alloc::AllocError;
use std::fmt;

/// What is wrong with a line of a case file.
#[derive(Clone, Copy, Debug, Drop)]
pub(crate) enum LineFault {
    /// It does not begin with a word of a case file, or its text is not understood.
    Unknown,
    /// It belongs to a case, and none is begun.
    NoRun,
    /// The case that it begins has no end.
    NoEnd,
    /// It adds to a file that is not there.
    NoFile,
    /// The file has no case.
    NoCase,
    NoMemory,
}

impl From<AllocError> for LineFault {
    fn from(_: AllocError) -> LineFault {
        LineFault::NoMemory
    }
}

impl fmt::Display for LineFault {
    fn fmt<W: fmt::Write>(&self, f: &mut fmt::Formatter<W>) -> fmt::Result {
        f.write_str(match self {
            LineFault::Unknown => "the line is not understood",
            LineFault::NoRun => "no run is begun",
            LineFault::NoEnd => "the run has no end",
            LineFault::NoFile => "no such file is set",
            LineFault::NoCase => "the file has no case",
            LineFault::NoMemory => "no memory",
        })
    }
}
