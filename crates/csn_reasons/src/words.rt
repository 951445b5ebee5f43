//! The words for the reasons why rules are refused.

use csn_resolve::Why;

/// Why rules are refused.
pub(crate) fn says(why: Why) -> &'static str {
    match why {
        Why::Undefined => "no rule has this name",
        Why::DefinedTwice => "a rule before this one has the name already, or it is built in",
        Why::Recursive => "this name stands inside its own rule",
        Why::ValUnknown => "the count names no field that it can see",
        Why::ValWidth => "the count stands on a part that is no field of 1 to 16 bits",
        Why::ZeroCount => "a count is 0",
        Why::CountTooLarge => "a count is too large",
        Why::IntersectionForm => "neither side of `&` says how many bits the other has",
        Why::ErrorBranchForm => "a sender could take this error branch",
        Why::NoString => "nothing could ever stand here in this reading",
        Why::TooManyNodes => "with this part the description has more than 16,384 nodes",
        Why::TooDeep => "more than 64 parts, names and braces are inside one another here",
        Why::TooManyVals => "64 fields before this one are counted on already",
    }
}

/// What usually helps.
pub(crate) fn helps(why: Why) -> &'static str {
    match why {
        Why::Undefined => "write a rule for it, or mend the name",
        Why::DefinedTwice => "take one of the two out, or give it another name",
        Why::Recursive => "write a repetition, `{ 1 .. } ** 0`",
        Why::ValUnknown => "the field must stand before the part, in the same braces or round them",
        Why::ValWidth => "write upper bits that are always 0 as a literal before the field",
        Why::ZeroCount => "leave the part out, or write `null`",
        Why::CountTooLarge => "write octets for bits, or cut the part into several",
        Why::IntersectionForm => "write `bit (N)` or `octet (N)` on one side",
        Why::ErrorBranchForm => "write `= <no string>` behind one of its parts",
        Why::NoString =>
            "put what is never sent to the left of `=`, with what is sent in its place",
        Why::TooManyNodes =>
            "ask for the rule of one message, or write what does not matter as `bit (**)`",
        Why::TooDeep => "leave out braces, or shorten chains of names",
        Why::TooManyVals => "put each field and what it counts into braces of their own",
    }
}
