/// What came of handing reports to a sink.
#[derive(Clone, Copy, Debug, Drop, PartialEq, Eq)]
pub enum Told {
    Ok,
    /// The sink met a fault, and its count of faults shows it.
    WriteFault,
    NoMemory,
}
