use arrayvec::ArrayVec;
use csn_segment::{Joined, Joiner, SegmentWhy};
use std::alloc::Global;
use std::process::Abort;
use std::test::Fail;

/// Octets, as runs of the same one.
type Octets = &'static [(u8, usize)];

/// What a block gives.
#[derive(Clone, Copy)]
enum Answer {
    Message(Octets),
    Waiting(u8),
    Refused(SegmentWhy),
}

// the MAC header, then RBSN, RTI, FS and AC, and the body
const FIRST: Octets = &[(0x80, 1), (0x0C, 1), (0xA1, 21)];

const SECOND: Octets = &[(0x80, 1), (0x8E, 1), (0xB1, 21)];

const MESSAGE: Answer = Answer::Message(&[(0xA1, 21), (0xB1, 21)]);

const NO_FIRST: Answer = Answer::Refused(SegmentWhy::NoFirst);

fn octets(alloc: Global, runs: Octets) -> Result<Vec<u8>, Fail> {
    let mut octets = Vec::new(alloc);
    for &(octet, count) in runs {
        for _ in 0..count {
            octets.push(octet)?;
        }
    }
    Ok(octets)
}

/// What is joined where this is the answer.
fn joined_as(alloc: Global, answer: Answer) -> Result<Joined, Fail> {
    Ok(match answer {
        Answer::Message(runs) => {
            Joined::Whole(ArrayVec::try_from(octets(alloc, runs)?.as_slice())?)
        }
        Answer::Waiting(rti) => Joined::Waiting { rti },
        Answer::Refused(why) => Joined::Refused(why),
    })
}

/// Gives the blocks to a joiner, one after another.
fn joins(rt: &impl Abort, alloc: Global, steps: &[(Octets, Answer)]) -> Result<(), Fail> {
    let mut joiner = Joiner::new();
    for (number, &(block, answer)) in steps.iter().enumerate() {
        let joined = joiner.take(&octets(alloc, block)?);
        let wanted = joined_as(alloc, answer)?;
        assert_eq!(rt; joined, wanted, "block {number}");
    }
    Ok(())
}

/// Blocks that come one behind another, and what each gives.
const SEQUENCES: &[&[(Octets, Answer)]] = &[
    // A first segment waits for its second.
    &[
        (SECOND, NO_FIRST),
        (FIRST, Answer::Waiting(3)),
        (SECOND, MESSAGE),
        (SECOND, NO_FIRST),
    ],
    // A first segment replaces one that waits.
    &[
        (&[(0x80, 1), (0x0C, 1), (0xC1, 21)], Answer::Waiting(3)),
        (FIRST, Answer::Waiting(3)),
        (SECOND, MESSAGE),
    ],
    // Transactions stand between each other.
    &[
        (FIRST, Answer::Waiting(3)),
        (&[(0x80, 1), (0x7C, 1), (0xA2, 21)], Answer::Waiting(31)),
        (&[(0x80, 1), (0x82, 1), (0xB3, 21)], NO_FIRST),
        (SECOND, MESSAGE),
        (
            &[(0x80, 1), (0xFE, 1), (0xB2, 21)],
            Answer::Message(&[(0xA2, 21), (0xB2, 21)]),
        ),
    ],
    // An address is no part of a message.
    &[
        (
            &[(0x80, 1), (0x0D, 1), (0x42, 1), (0xA1, 20)],
            Answer::Waiting(3),
        ),
        (
            &[(0x80, 1), (0x8F, 1), (0x42, 1), (0xB1, 20)],
            Answer::Message(&[(0xA1, 20), (0xB1, 20)]),
        ),
        (
            &[(0x80, 1), (0x0F, 1), (0x42, 1), (0xD1, 20)],
            Answer::Message(&[(0xD1, 20)]),
        ),
    ],
    // Other blocks leave what waits.
    &[
        (FIRST, Answer::Waiting(3)),
        (&[], Answer::Refused(SegmentWhy::BadLength)),
        (
            &[(0x80, 1), (0x0E, 1), (0xD1, 20)],
            Answer::Refused(SegmentWhy::BadLength),
        ),
        (
            &[(0x80, 1), (0x0E, 1), (0xD1, 22)],
            Answer::Refused(SegmentWhy::BadLength),
        ),
        (
            &[(0x3F, 1), (0x0E, 1), (0xD1, 21)],
            Answer::Refused(SegmentWhy::NotControl),
        ),
        (
            &[(0xC0, 1), (0x0E, 1), (0xD1, 21)],
            Answer::Refused(SegmentWhy::Reserved),
        ),
        (
            &[(0x80, 1), (0x8C, 1), (0xD1, 21)],
            Answer::Refused(SegmentWhy::NotFinal),
        ),
        (
            &[(0x7F, 1), (0x0E, 1), (0xD1, 21)],
            Answer::Message(&[(0x0E, 1), (0xD1, 21)]),
        ),
        (SECOND, MESSAGE),
    ],
    // A message in one block ends what waits.
    &[
        (FIRST, Answer::Waiting(3)),
        (WHOLE, Answer::Message(&[(0xD1, 21)])),
        (SECOND, NO_FIRST),
    ],
    // A packet polling request that is filled up with the padding pattern, in one block and in two.
    &[
        (
            &[
                (0x40, 1),
                (0x10, 1),
                (0xB0, 1),
                (0x00, 3),
                (0x6B, 1),
                (0x2B, 16),
            ],
            Answer::Message(&[(0x10, 1), (0xB0, 1), (0x00, 3), (0x6B, 1), (0x2B, 16)]),
        ),
        (
            &[
                (0x80, 1),
                (0x0C, 1),
                (0x10, 1),
                (0xB0, 1),
                (0x00, 3),
                (0x6B, 1),
                (0x2B, 15),
            ],
            Answer::Waiting(3),
        ),
        (&[(0x80, 1), (0x10, 1), (0x2B, 21)], Answer::Waiting(4)),
        (
            &[(0x80, 1), (0x8E, 1), (0x2B, 21)],
            Answer::Message(&[(0x10, 1), (0xB0, 1), (0x00, 3), (0x6B, 1), (0x2B, 36)]),
        ),
        (&[(0x80, 1), (0x8E, 1), (0x2B, 21)], NO_FIRST),
        (
            &[(0x00, 1), (0x2B, 22)],
            Answer::Refused(SegmentWhy::NotControl),
        ),
        (&[(0x40, 1)], Answer::Refused(SegmentWhy::BadLength)),
    ],
];

const WHOLE: Octets = &[(0x80, 1), (0x0E, 1), (0xD1, 21)];

#[test]
fn blocks_are_joined(rt: HostRuntime) -> Result<(), Fail> {
    for steps in SEQUENCES {
        joins(&rt, rt.alloc(), steps)?;
    }
    Ok(())
}
