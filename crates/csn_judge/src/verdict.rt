/// What is known of a block that goes on.
#[derive(Clone, Copy, Debug, PartialEq, Eq, Hash)]
pub enum Verdict {
    /// The bits so far can be followed.
    Going,
    /// They cannot: only the first `place` of them.
    Refused { place: u32 },
}

/// What is known of a block that has ended.
#[derive(Clone, Copy, Debug, PartialEq, Eq, Hash)]
pub enum Judged {
    /// The bits are a string of the description.
    Ok,
    /// They are none, and the first `place` of them can be followed.
    Refused { place: u32 },
}
