//! How blocks are judged, in whatever pieces they come: what is answered for each piece and at the end, with the places,
//! and which moves are told.

ghost use Rattle.std.specs.Prelude.{◌≡◌, ◌<◌, ◌≤◌, ◌+◌, length};

use crate::texts::{block_of, pieces_of, plan_of, plan_of_rule};
use csn_bits::{Bits, MOST_BITS};
use csn_catalogue::text;
use csn_certify::{Plan, Steps};
use csn_desc::{Node, Reading};
use csn_judge::{
    Judge, Judged, Move, Piece, Track, Verdict, judge_block, judge_next, judge_pieces,
};
use std::alloc::Global;
use std::marker::Brand;
use std::process::Abort;
use std::sync::ledger::{Blank, Ledger};
use std::test::Fail;

const FIELDS: &str = "<M> ::= <A : bit (3)> 0 <B : bit (4)> ;";

const CHOICE: &str = "<M> ::= { 0 <A : bit (2)> | 10 <B : bit> | 11 } ;";

const OCTETS: &str = "<M> ::= { 1 <A : bit(7)> } ** 0 <spare padding> ;";

const WINDOW: &str = "<M> ::= <L : bit(3)> { bit(val(L)+1) & { <A : bit(2)> <spare bit> ** } } 1 ;";

/// The block of most frames: fields, an end, and padding up to 176 bits.
const DOWNLINK: &str = "10B00000006B2B2B2B2B2B2B2B2B2B2B2B2B2B2B2B2B";

/// A description, the pieces of a block, what is answered for each of them, how many bits were seen by then, and
/// what is answered at the end.
struct InPieces {
    text: &'static str,
    lines: &'static [&'static str],
    answers: &'static [Verdict],
    seen: u32,
    end: Judged,
}

const IN_PIECES: &[InPieces] = &[
    InPieces {
        text: WINDOW,
        lines: &["00/1", "00/1", "00/1", "00/1", "00/1", "00/1"],
        answers: &[
            Verdict::Going,
            Verdict::Going,
            Verdict::Going,
            Verdict::Going,
            Verdict::Refused { place: 4 },
            Verdict::Refused { place: 4 },
        ],
        seen: 5,
        end: Judged::Refused { place: 4 },
    },
    InPieces {
        text: CHOICE,
        lines: &["80/1"],
        answers: &[Verdict::Going],
        seen: 1,
        end: Judged::Refused { place: 1 },
    },
    InPieces {
        text: CHOICE,
        lines: &["80/1", "80/1"],
        answers: &[Verdict::Going, Verdict::Going],
        seen: 2,
        end: Judged::Ok,
    },
    InPieces {
        text: FIELDS,
        lines: &["A0/3", "A8/5"],
        answers: &[Verdict::Going, Verdict::Refused { place: 3 }],
        seen: 8,
        end: Judged::Refused { place: 3 },
    },
    InPieces {
        text: FIELDS,
        lines: &["A0/3", ".", "28/5"],
        answers: &[Verdict::Going, Verdict::Going, Verdict::Going],
        seen: 8,
        end: Judged::Ok,
    },
];

/// `A5` in single bits.
const SINGLE_BITS: &[&str] = &[
    "80/1", "00/1", "80/1", "00/1", "00/1", "80/1", "00/1", "80/1",
];

/// What is told of `A5` by the description of two fields.
const MOVES: &[Move] = &[
    Move::Enter(0),
    Move::Enter(1),
    Move::Enter(2),
    Move::Bit(1),
    Move::Bit(0),
    Move::Bit(1),
    Move::Leave,
    Move::Leave,
    Move::Enter(3),
    Move::Bit(0),
    Move::Leave,
    Move::Enter(4),
    Move::Enter(5),
    Move::Bit(0),
    Move::Bit(1),
    Move::Bit(0),
    Move::Bit(1),
    Move::Leave,
    Move::Leave,
    Move::Leave,
];

/// Keeps the moves that are told.
#[derive(Drop)]
struct Kept {
    moves: Vec<Move>,
    /// Whether there was no memory for one.
    lost: bool,
}

impl Track for Kept {
    ghost use Rattle.std.specs.Prelude.{⊤};

    ghost takes = { λ _ _ _ _. ⊤ };

    ghost fits = { λ _ _. ⊤ };

    ghost keeps = { λ _ _ _ _ _ _ _. tt };

    fn step(&mut self, step: Move, _node: &Node) {
        if self.moves.push(step).is_err() {
            self.lost = true;
        }
    }
}

/// What came of a block.
#[derive(Drop)]
struct Came {
    answers: Vec<Verdict>,
    seen: u32,
    end: Judged,
    moves: Vec<Move>,
}

/// Where a piece is refused whose last bit has this place, which it then holds.
fn refused_piece<L: Ledger>(
    judge: &mut Judge<'_>,
    piece: &Bits,
    last: u32,
    steps: &mut Steps<L>,
) -> Result<Option<u32>, Fail> {
    if judge.seen() > MOST_BITS - piece.len() {
        return Err("too many bits".into());
    }
    let Verdict::Refused { place } = judge.feed(piece.octets(), piece.len(), steps) else {
        return Ok(None);
    };
    if place > last || last - place >= piece.len() {
        return Err("a place outside the piece".into());
    }
    Ok(Some(place))
}

/// Where a block is refused that comes in pieces of so many bits, if it is before its end.
fn refused_place<L: Ledger>(
    alloc: Global,
    judge: &mut Judge<'_>,
    block: &Bits,
    size: u32,
    steps: &mut Steps<L>,
) -> Result<Option<u32>, Fail> {
    let mut piece = Bits::new(alloc);
    for at in 0..block.len() {
        piece.push(block.get(at))?;
        if piece.len() >= size || at + 1 == block.len() {
            if let Some(place) = refused_piece(judge, &piece, at, steps)? {
                return Ok(Some(place));
            }
            piece = Bits::new(alloc);
        }
    }
    Ok(None)
}

/// How a block is judged that comes in pieces of so many bits, as one line.
fn line_with<L: Ledger>(
    alloc: Global,
    plan: &Plan,
    block: &Bits,
    size: u32,
    blank: Blank,
) -> Result<String, Fail>
    requires name { blank.name ≡ L.name }
    requires parts { blank.parts ≡ L.parts }
    requires some { 0 < blank.parts }
{
    let mut steps = Steps::<L>::new(blank);
    let mut judge = Judge::new(plan);
    if let Some(place) = refused_place(alloc, &mut judge, block, size, &mut steps)? {
        return Ok(format!(in alloc; "no {place} bit")?);
    }
    match judge.finish(&mut steps) {
        Judged::Ok => Ok(String::from_str(alloc, "ok")?),
        Judged::Refused { place } => Ok(format!(in alloc; "no {place} ended")?),
    }
}

/// The same, by steps of its own.
fn line_of(alloc: Global, plan: &Plan, block: &Bits, size: u32) -> Result<String, Fail> {
    line_with::<Brand>(alloc, plan, block, size, Blank::new(1))
}

/// What is answered for each of these pieces.
fn fed<L: Ledger>(
    alloc: Global,
    judge: &mut Judge<'_>,
    pieces: &[Bits],
    kept: &mut Kept,
    steps: &mut Steps<L>,
) -> Result<Vec<Verdict>, Fail> {
    let mut answers = Vec::new(alloc);
    for piece in pieces {
        if judge.seen() > MOST_BITS - piece.len() {
            return Err("too many bits".into());
        }
        answers.push(judge.feed_to(piece.octets(), piece.len(), kept, steps))?;
    }
    Ok(answers)
}

/// What comes of a block in these pieces.
fn came_with<L: Ledger>(
    alloc: Global,
    plan: &Plan,
    pieces: &[Bits],
    blank: Blank,
) -> Result<Came, Fail>
    requires name { blank.name ≡ L.name }
    requires parts { blank.parts ≡ L.parts }
    requires some { 0 < blank.parts }
{
    let mut steps = Steps::<L>::new(blank);
    let mut judge = Judge::new(plan);
    let mut kept = Kept {
        moves: Vec::new(alloc),
        lost: false,
    };
    let answers = fed(alloc, &mut judge, pieces, &mut kept, &mut steps)?;
    let seen = judge.seen();
    let end = judge.finish_to(&mut kept, &mut steps);
    let Kept { moves, lost } = kept;
    if lost {
        return Err("out of memory".into());
    }
    Ok(Came {
        answers,
        seen,
        end,
        moves,
    })
}

/// The same, by steps of its own.
fn came_of(alloc: Global, plan: &Plan, pieces: &[Bits]) -> Result<Came, Fail> {
    came_with::<Brand>(alloc, plan, pieces, Blank::new(1))
}

/// Judges `A5` in single bits by a plan of six nodes: with its end it takes at most 8 × 6 × 9 steps.
fn counted<L: Ledger>(plan: &Plan, steps: &mut Steps<L>) -> Judged
    requires nodes { length plan.now.nodes ≡ 6 }
    ensures steps { steps.new ≤ steps.old + 432 }
{
    let mut judge = Judge::new(plan);
    for octet in [0x80, 0x00, 0x80, 0x00, 0x00, 0x80, 0x00, 0x80] {
        if let Verdict::Refused { .. } = judge.feed(&[octet], 1, steps) {
            break;
        }
    }
    judge.finish(steps)
}

/// The same, where no step was taken before.
fn counted_with<L: Ledger>(plan: &Plan, blank: Blank) -> Judged
    requires nodes { length plan.now.nodes ≡ 6 }
    requires name { blank.name ≡ L.name }
    requires parts { blank.parts ≡ L.parts }
    requires some { 0 < blank.parts }
{
    counted(plan, &mut Steps::<L>::new(blank))
}

/// The same, by steps of its own.
fn counted_of(plan: &Plan) -> Judged
    requires nodes { length plan.now.nodes ≡ 6 }
{
    counted_with::<Brand>(plan, Blank::new(1))
}

/// A block is judged as the line says: whole, in pieces of three bits, and in single bits.
fn expect(
    rt: &impl Abort,
    alloc: Global,
    plan: &Plan,
    block: &Bits,
    line: &str,
) -> Result<(), Fail> {
    for size in [MOST_BITS, 3, 1] {
        let came = line_of(alloc, plan, block, size)?;
        assert_eq!(rt; came.as_str(), line, "in pieces of {size} bits");
    }
    Ok(())
}

#[test]
fn the_longest_block_is_judged(rt: HostRuntime) -> Result<(), Fail> {
    let alloc = rt.alloc();
    let plan = plan_of(alloc, OCTETS)?;
    let bits = Bits::from_hex_line(alloc, &vec![in alloc; b'F'; 131_072]?)?;
    expect(&rt, alloc, &plan, &bits, "no 524288 ended")
}

/// The front of the block is judged by a plan: its fields end behind 43 bits, where the message may end, as it
/// may behind each bit of padding.
fn expect_front(
    rt: &impl Abort,
    alloc: Global,
    plan: &Plan,
    block: &Bits,
    len: u32,
) -> Result<(), Fail>
    requires { len ≤ length block.now }
{
    let front = Bits::from_octets(alloc, block.octets(), len)?;
    let line = if len < 43 {
        format!(in alloc; "no {len} ended")?
    } else {
        String::from_str(alloc, "ok")?
    };
    expect(rt, alloc, plan, &front, &line)
}

/// Each front of the block is judged by a plan.
fn expect_fronts(rt: &impl Abort, alloc: Global, plan: &Plan, block: &Bits) -> Result<(), Fail> {
    for len in 0..block.len() + 1 {
        expect_front(rt, alloc, plan, block, len)?;
    }
    Ok(())
}

#[test]
fn each_front_of_a_block_is_judged(rt: HostRuntime) -> Result<(), Fail> {
    let alloc = rt.alloc();
    let block = block_of(alloc, DOWNLINK)?;
    let text = str::from_utf8(text())?;
    for reading in [Reading::Received, Reading::Sent] {
        let plan = plan_of_rule(alloc, text, "Downlink Control Block", reading)?;
        expect_fronts(&rt, alloc, &plan, &block)?;
    }
    Ok(())
}

/// What comes of the pieces that these lines spell by the rule M of a text.
fn came_of_lines(alloc: Global, text: &str, lines: &[&str]) -> Result<Came, Fail> {
    let plan = plan_of(alloc, text)?;
    let pieces = pieces_of(alloc, lines)?;
    came_of(alloc, &plan, &pieces)
}

/// The pieces of a block were answered as they came.
fn expect_answers(rt: &impl Abort, came: &Came, case: &InPieces) {
    assert_eq!(rt;
        (case.text, came.answers.as_slice(), came.seen, came.end),
        (case.text, case.answers, case.seen, case.end)
    );
}

#[test]
fn each_piece_is_answered(rt: HostRuntime) -> Result<(), Fail> {
    for case in IN_PIECES {
        let came = came_of_lines(rt.alloc(), case.text, case.lines)?;
        expect_answers(&rt, &came, case);
    }
    Ok(())
}

/// These moves were told of a block that is a string.
fn expect_moves(rt: &impl Abort, came: &Came, moves: &[Move]) {
    assert_eq!(rt; (came.moves.as_slice(), came.end), (moves, Judged::Ok));
}

#[test]
fn moves_are_told(rt: HostRuntime) -> Result<(), Fail> {
    for lines in [["A5"].as_slice(), SINGLE_BITS] {
        let came = came_of_lines(rt.alloc(), FIELDS, lines)?;
        expect_moves(&rt, &came, MOVES);
    }
    Ok(())
}

#[test]
fn steps_are_few(rt: HostRuntime) -> Result<(), Fail> {
    let plan = plan_of(rt.alloc(), FIELDS)?;
    if plan.len() != 6 {
        return Err("not six nodes".into());
    }
    assert_eq!(rt; counted_of(&plan), Judged::Ok);
    Ok(())
}

/// A block is judged whole, in two pieces, and by a judge that has judged another before it.
fn judged_whole(plan: &Plan, block: &Bits) -> [Judged; 3] {
    let pieces = [
        Piece {
            octets: &[0xA0],
            bits: 3,
        },
        Piece {
            octets: &[0x28],
            bits: 5,
        },
    ];
    let mut judge = Judge::new(plan);
    let _refused = judge_next(&mut judge, &pieces[1..]);
    [
        judge_block(plan, block),
        judge_pieces(plan, &pieces),
        judge_next(&mut judge, &pieces),
    ]
}

#[test]
fn a_block_that_is_there_as_a_whole_is_judged(rt: HostRuntime) -> Result<(), Fail> {
    let plan = plan_of(rt.alloc(), FIELDS)?;
    let block = block_of(rt.alloc(), "A5")?;
    assert_eq!(rt; judged_whole(&plan, &block), [Judged::Ok; 3]);
    Ok(())
}
