use crate::leaf::Leaf;

/// A node and what is still to come of it.
// all but nodes has 32 bits: what is stored in pieces and loaded as one word makes the processor wait
#[derive(Clone, Copy)]
pub(crate) enum Frame {
    /// All of it: it begins next.
    Begin {
        node: u16,
    },
    /// Some of the bits of a leaf.
    Leaf {
        node: u16,
        leaf: Leaf,
    },
    /// Some of the bits of a labelled field that counts stand on.
    Counted(Counted),
    /// The parts of a sequence from the place `at` on. It sees so many values.
    Seq {
        node: u16,
        at: u32,
        values: u32,
    },
    /// The first few parts of a truncation from the place `at` on. It sees so many values.
    Trunc {
        node: u16,
        at: u32,
        values: u32,
    },
    /// One of the alternatives of a choice.
    Open {
        node: u16,
    },
    /// Nothing more of a choice, behind its alternative.
    Choice {
        node: u16,
    },
    /// So many more times the part.
    Times {
        node: u16,
        part: u16,
        left: u32,
    },
    /// Any number of times the part, each time with a bit at least.
    Many {
        node: u16,
        part: u16,
    },
    /// Nothing more of a window of so many bits from the place `start` on, behind its part. Those round it end at
    /// `outer`.
    Window {
        node: u16,
        start: u32,
        bits: u32,
        outer: u32,
    },
    /// Nothing more of a labelled part, behind the part.
    Named {
        node: u16,
    },
}

/// A labelled field that counts stand on, with the number that its bits so far write and how many are left.
#[derive(Clone, Copy)]
pub(crate) struct Counted {
    /// The node of the label.
    pub node: u16,
    /// The node of the field.
    pub part: u16,
    pub left: u32,
    pub number: u32,
}

impl Default for Frame {
    fn default() -> Frame {
        Frame::Begin { node: 0 }
    }
}
