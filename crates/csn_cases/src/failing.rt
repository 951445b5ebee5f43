//! Calls of the outside that fail: what stands written is then a front of the whole text.

ghost use Rattle.std.specs.Prelude.{◌≤◌};

use crate::runs::{Failing, Ran, expect, ran_in_pieces};
use csn_replay::{BitsWatcher, Watcher};
use std::alloc::{AllocError, Global};
use std::process::Abort;
use std::test::Fail;

/// Words, and the input that they are run over.
const ROWS: &[(&[&str], &[u8])] = &[
    (&["check", "F", "M", "received"], b"A5\n"),
    (&["check", "F", "N", "received"], b"A5\n"),
    (&["certificate", "F", "M", "received"], b"A5\n"),
    (&["show", "F", "M", "received"], b"A5\nB5\nA5GG\n\nA5"),
    (&["json", "F", "M", "received"], b"A5\nB5\nA5GG\n\nA5"),
    (
        &["write", "F", "M", "received"],
        b"[<A>=3'5 . <B>=4'5]\n[<A>=3'5 .]\n[<A>\n",
    ),
    (
        &["unjson", "F", "M", "received"],
        b"[{\"label\":\"A\",\"tree\":\"A0/3\"},null,{\"label\":\"B\",\"tree\":\"50/4\"}]\n[\n7\n",
    ),
    (
        &["replay", "received"],
        b"si1 2B\ndownlink FF\nia GG\nsi9 00\nsi1 83",
    ),
    (&["soak", "ia", "16"], b"A5\n"),
    (&["compat", "F", "F", "M", "received"], b"A5\n"),
    (&["verify", "F", "M", "received", "F"], b"A5\n"),
    (&["migrate"], b"b\n<A>=3'9\n.\n"),
    (
        &["segments", "received"],
        b"808C2B2B2B2B2B2B2B2B2B2B2B2B2B2B2B2B2B2B2B2B2B\n40\n40FF2B2B2B2B2B2B2B2B2B2B2B2B2B2B2B2B2B2B2B2B2B\n",
    ),
];

/// A run by at most 48 bytes a call, with a watcher of bits.
fn ran_failing(
    alloc: Global,
    words: &[&str],
    input: &[u8],
    failing: Failing,
) -> Result<Ran, AllocError> {
    let mut watchers: Vec<Box<dyn Watcher>> = Vec::new(alloc);
    watchers.push(Box::new(alloc, BitsWatcher::new(u64::MAX))?)?;
    ran_in_pieces(alloc, words, input, 48, failing, watchers)
}

/// Which kind of call fails.
#[derive(Clone, Copy)]
pub(crate) enum Call {
    Fetch,
    Take,
    /// A put, or the flush behind the last one.
    Put,
}

impl Call {
    /// An outside of which the call with this number fails.
    pub(crate) fn failing(self, alloc: Global, number: u32) -> Result<Failing, AllocError> {
        let mut failing = Failing::none(alloc);
        match self {
            Call::Fetch => failing.fetches.push(number)?,
            Call::Take => failing.takes.push(number)?,
            Call::Put => failing.puts.push(number)?,
        }
        Ok(failing)
    }

    /// The status of a run of which such a call failed.
    pub(crate) fn status(self) -> u8 {
        match self {
            Call::Fetch | Call::Take => 5,
            Call::Put => 6,
        }
    }
}

/// A run ended as the whole one did, and wrote as much.
fn expect_whole(rt: &impl Abort, ran: &Ran, whole: &Ran, words: &[&str]) {
    assert_eq!(rt;
        (ran.ended.status(), ran.text.as_slice()),
        (whole.ended.status(), whole.text.as_slice()),
        "{words:?}"
    );
}

/// A run of which the call with this number failed wrote a front of the whole text.
fn expect_front(rt: &impl Abort, ran: &Ran, whole: &Ran, words: &[&str], number: u32) {
    let is_front = whole.text.starts_with(&ran.text);
    assert!(rt; is_front, "{words:?}, call {number}");
}

/// Makes the calls of a kind fail, one in a run, until a run ends without a fault.
fn fail_each(
    rt: &impl Abort,
    alloc: Global,
    call: Call,
    words: &[&str],
    input: &[u8],
) -> Result<(), AllocError> {
    let whole = ran_failing(alloc, words, input, Failing::none(alloc))?;
    for number in 0..1000 {
        let ran = ran_failing(alloc, words, input, call.failing(alloc, number)?)?;
        if ran.ended.status() != call.status() {
            expect_whole(rt, &ran, &whole, words);
            return Ok(());
        }
        expect_front(rt, &ran, &whole, words, number);
    }
    assert!(rt; false, "{words:?} does not end");
    Ok(())
}

#[test]
fn each_call_fails_once(rt: HostRuntime) -> Result<(), Fail> {
    for (words, input) in ROWS {
        for call in [Call::Fetch, Call::Take, Call::Put] {
            fail_each(&rt, rt.alloc(), call, words, input)?;
        }
    }
    Ok(())
}

/// A run of which a call fails, by its kind and its number, over an outside that moves so many bytes in a call, and what
/// it has written by then.
struct Fault {
    words: &'static [&'static str],
    input: &'static [u8],
    most: u32,
    call: Call,
    number: u32,
    text: &'static [u8],
}

const SHOW: &[&str] = &["show", "F", "M", "received"];

const FAULTS: &[Fault] = &[
    // Seven bytes in a call: the third call comes after 14 bytes, so after all three lines but the second call's
    // answers, which end in the middle of the second line.
    Fault {
        words: SHOW,
        input: b"B5\nA0/6\nA500\n",
        most: 7,
        call: Call::Take,
        number: 1,
        text: b"no 3 bit\n",
    },
    Fault {
        words: SHOW,
        input: b"B5\nA0/6\nA500\n",
        most: 4096,
        call: Call::Put,
        number: 0,
        text: b"",
    },
    // The first call of the sink is the flush.
    Fault {
        words: SHOW,
        input: b"",
        most: 4096,
        call: Call::Put,
        number: 0,
        text: b"",
    },
    // The first seven bytes end in the second line, the next seven after the third.
    Fault {
        words: &["migrate"],
        input: b"b\n<A>=3'9\n.\n",
        most: 7,
        call: Call::Take,
        number: 1,
        text: b"ok b\n",
    },
    // The first put takes the first line's answer, the second one is refused.
    Fault {
        words: &["migrate"],
        input: b"b\n<A>=3'9\n.\n",
        most: 7,
        call: Call::Put,
        number: 1,
        text: b"ok b\n",
    },
    Fault {
        words: &["migrate"],
        input: b"",
        most: 4096,
        call: Call::Put,
        number: 0,
        text: b"",
    },
    // The shelf has the description, and does not hand it out.
    Fault {
        words: &["check", "F", "M", "received"],
        input: b"A5\n",
        most: 7,
        call: Call::Fetch,
        number: 0,
        text: b"",
    },
    Fault {
        words: SHOW,
        input: b"A5\n",
        most: 7,
        call: Call::Fetch,
        number: 0,
        text: b"",
    },
    Fault {
        words: &["write", "F", "M", "received"],
        input: b"A5\n",
        most: 7,
        call: Call::Fetch,
        number: 0,
        text: b"",
    },
];

/// The run of a row.
fn ran_with(alloc: Global, fault: &Fault) -> Result<Ran, Fail> {
    if fault.most == 0 {
        return Err("nothing is moved in a call".into());
    }
    let failing = fault.call.failing(alloc, fault.number)?;
    Ok(ran_in_pieces(
        alloc,
        fault.words,
        fault.input,
        fault.most,
        failing,
        Vec::new(alloc),
    )?)
}

#[test]
fn faults_keep_what_was_answered(rt: HostRuntime) -> Result<(), Fail> {
    for fault in FAULTS {
        let ran = ran_with(rt.alloc(), fault)?;
        expect(&rt, &ran, fault.text, fault.call.status(), "a fault");
    }
    Ok(())
}

/// Words whose run ends before its first line, what is written, and the status.
const BEFORE_LINES: &[(&[&str], &[u8], u8)] = &[
    (&["check", "F", "M", "received"], b"certified 6\n", 0),
    (&["check", "F", "N", "sent"], b"description 1 0\n", 3),
    (&["show", "F", "N", "sent"], b"description 1 0\n", 3),
    (&["write", "F", "N", "sent"], b"description 1 0\n", 3),
];

#[test]
fn input_is_left_alone_before_its_lines(rt: HostRuntime) -> Result<(), Fail> {
    let alloc = rt.alloc();
    for &(words, text, status) in BEFORE_LINES {
        // The first take would fail.
        let first = Call::Take.failing(alloc, 0)?;
        let ran = ran_in_pieces(alloc, words, b"A5\n", 7, first, Vec::new(alloc))?;
        expect(&rt, &ran, text, status, "no take");
    }
    Ok(())
}

/// Words, an input whose lines end in each of the ways, and what is written. The status is 1.
const IN_PIECES: &[(&[&str], &[u8], &[u8])] = &[
    (
        SHOW,
        b"A5\r\nB5\n\nA0/6\nA0GG\nA5",
        b"ok [<A>=3'5 . <B>=4'5]\nno 3 bit\nno 6 ended\nbad 1 2\nok [<A>=3'5 . <B>=4'5]\n",
    ),
    (
        &["write", "F", "M", "received"],
        b"[<A>=3'5 . <B>=4'5]\r\n\n[<A>=3'5 .]\nb0",
        b"ok A5\nno / WrongCount 3 2\nbad 1\n",
    ),
    (
        &["migrate"],
        b"b\n<A>=3'9\n[3'5 .]",
        b"ok b\nbad 6\nok [3'5 .]\n",
    ),
];

/// The runs of all rows, by so many bytes a call.
fn expect_pieces(rt: &impl Abort, alloc: Global, most: u32) -> Result<(), AllocError>
    requires { 1 ≤ most }
{
    for &(words, input, text) in IN_PIECES {
        let none = Failing::none(alloc);
        let ran = ran_in_pieces(alloc, words, input, most, none, Vec::new(alloc))?;
        expect(rt, &ran, text, 1, "pieces of an input");
    }
    Ok(())
}

#[test]
fn pieces_do_not_matter(rt: HostRuntime) -> Result<(), Fail> {
    for most in [1, 2, 7, 4096] {
        expect_pieces(&rt, rt.alloc(), most)?;
    }
    Ok(())
}
