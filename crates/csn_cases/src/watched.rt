//! Watchers of the library and of one's own, in runs of `replay`: what they report, and that each is dropped once.

ghost use Rattle.std.specs.Prelude.{◌≡◌, ◌≤◌};
ghost use Rattle.csn_replay.specs.declared.seen.Kind.TheVariants.{Length};

use crate::failing::Call;
use crate::limits::{lines, repeated};
use crate::runs::{Failing, Ran, expect, ran_in_pieces, ran_over, ran_watched};
use csn_bits::NoMemory;
use csn_catalogue::Entry;
use csn_io::{MemSink, Sink};
use csn_replay::{
    BitsWatcher, EntryWatcher, Go, Kind, RefusedWatcher, Seen, Told, Watcher, close, tell,
};
use std::alloc::{AllocError, Global};
use std::cell::Cell;
use std::collections::BTreeMap;
use std::process::Abort;
use std::rc::Rc;
use std::test::Fail;

/// A watcher of the library, and until which count it watches.
#[derive(Clone, Copy)]
enum Watching {
    Entry(Entry, u64),
    Refused(u64),
    Bits(u64),
}

/// Words, watchers and an input, what is written, and the status.
struct Watched {
    words: &'static [&'static str],
    watchers: &'static [Watching],
    input: &'static [u8],
    text: &'static str,
    status: u8,
}

const REPLAY: &[&str] = &["replay", "received"];

const WATCHED: &[Watched] = &[
    // Blocks of an entry of which some have no tree, and a line of no entry: a report follows its line.
    Watched {
        words: REPLAY,
        watchers: &[Watching::Refused(2), Watching::Bits(u64::MAX)],
        input: b"si1 2B\nsi1 .\nsi1 80/1\nsi1 83\nsi9 00\n",
        text: "ok [#0:. <BAND_INDICATOR>=#0:. 6'43]
no 0 ended
no 1 ended
refused 2
ok [#1:[. <NCH Position>=5'0] <BAND_INDICATOR>=#0:. 1'1]
bad 5
bits 17
",
        status: 1,
    },
    // A watcher that is done reports no more.
    Watched {
        words: REPLAY,
        watchers: &[Watching::Bits(9)],
        input: b"si1 2B\nsi1 83\n",
        text: "ok [#0:. <BAND_INDICATOR>=#0:. 6'43]
ok [#1:[. <NCH Position>=5'0] <BAND_INDICATOR>=#0:. 1'1]
bits 16
",
        status: 0,
    },
    // Watchers of one kind count apart.
    Watched {
        words: REPLAY,
        watchers: &[
            Watching::Entry(Entry::Si1, u64::MAX),
            Watching::Bits(8),
            Watching::Entry(Entry::Ia, u64::MAX),
            Watching::Bits(9),
        ],
        input: b"si1 2B\n",
        text: "ok [#0:. <BAND_INDICATOR>=#0:. 6'43]
bits 8
entry si1 1
entry ia 0
bits 8
",
        status: 0,
    },
    // One that is done by a later block than another of its kind reports behind that block.
    Watched {
        words: REPLAY,
        watchers: &[
            Watching::Entry(Entry::Si1, u64::MAX),
            Watching::Bits(10),
            Watching::Entry(Entry::Ia, u64::MAX),
            Watching::Bits(9),
        ],
        input: b"si1 2B\nsi1 80/1\nsi1 2B2B2B2B2B2B2B2B2B2B2B\n",
        text: "ok [#0:. <BAND_INDICATOR>=#0:. 6'43]
no 1 ended
bits 9
ok [#0:. <BAND_INDICATOR>=#0:. xACACACACACACACACACACAC/6]
bits 97
entry si1 3
entry ia 0
",
        status: 1,
    },
    // The words of another command, and words of none.
    Watched {
        words: &["segments", "received"],
        watchers: &[Watching::Bits(u64::MAX)],
        input: b"si1 2B\n",
        text: "bad 1 0\n",
        status: 1,
    },
    Watched {
        words: &["replay", "both"],
        watchers: &[Watching::Bits(u64::MAX)],
        input: b"si1 2B\n",
        text: "",
        status: 2,
    },
];

/// One more watcher.
fn push(
    alloc: Global,
    watchers: &mut Vec<Box<dyn Watcher>>,
    watching: Watching,
) -> Result<(), AllocError> {
    match watching {
        Watching::Entry(entry, until) => {
            watchers.push(Box::new(alloc, EntryWatcher::new(entry, until.max(1)))?)?;
        }
        Watching::Refused(until) => {
            watchers.push(Box::new(alloc, RefusedWatcher::new(until.max(1)))?)?;
        }
        Watching::Bits(until) => {
            watchers.push(Box::new(alloc, BitsWatcher::new(until.max(1)))?)?;
        }
    }
    Ok(())
}

fn watchers_of(alloc: Global, watching: &[Watching]) -> Result<Vec<Box<dyn Watcher>>, AllocError> {
    let mut watchers: Vec<Box<dyn Watcher>> = Vec::new(alloc);
    for one in watching {
        push(alloc, &mut watchers, *one)?;
    }
    Ok(watchers)
}

/// The run of a row.
fn ran_as(alloc: Global, row: &Watched) -> Result<Ran, AllocError> {
    let watchers = watchers_of(alloc, row.watchers)?;
    let input = Vec::from_slice(alloc, row.input)?;
    ran_watched(alloc, row.words, BTreeMap::new(alloc), input, watchers)
}

#[test]
fn watchers_report(rt: HostRuntime) -> Result<(), Fail> {
    for row in WATCHED {
        let ran = ran_as(rt.alloc(), row)?;
        expect(&rt, &ran, row.text.as_bytes(), row.status, "watchers");
    }
    Ok(())
}

#[test]
fn a_sink_that_fails_cuts_a_report(rt: HostRuntime) -> Result<(), Fail> {
    let alloc = rt.alloc();
    let failing = Call::Put.failing(alloc, 3)?;
    let watchers = watchers_of(alloc, &[Watching::Bits(u64::MAX)])?;
    let ran = ran_in_pieces(alloc, REPLAY, b"si9 00\n", 4, failing, watchers)?;
    expect(&rt, &ran, b"bad 5\nbits", 6, "a put fails");
    Ok(())
}

/// Counts bits from some number on, and how often watchers like it were dropped.
struct Counting {
    count: u64,
    until: u64,
    /// Whether there is memory for its report.
    reports: bool,
    drops: Rc<Cell<u32>>,
}

impl Drop for Counting {
    fn drop(self) {
        let Counting {
            count: _,
            until: _,
            reports: _,
            drops,
        } = self;
        drops.set(drops.get().saturating_add(1));
    }
}

impl Watcher for Counting {
    ghost watched = { λ w. record { kind = Length; count = w.count; until = w.until } };

    fn kind(&self) -> Kind {
        Kind::Length
    }

    fn count(&self) -> u64 {
        self.count
    }

    fn until(&self) -> u64 {
        self.until
    }

    fn see(&mut self, seen: &Seen) -> Go {
        self.count = self.count.saturating_add(u64::from(seen.bits));
        if self.count >= self.until {
            Go::Done
        } else {
            Go::Stay
        }
    }

    fn report_line(&self, alloc: Global) -> Result<Vec<u8>, NoMemory> {
        if !self.reports {
            return Err(NoMemory);
        }
        Ok(format!(in alloc; "bits {}", self.count)?.into_bytes())
    }
}

/// A watcher of one's own, alone.
fn of_counting(
    alloc: Global,
    count: u64,
    until: u64,
    reports: bool,
    drops: &Rc<Cell<u32>>,
) -> Result<Vec<Box<dyn Watcher>>, AllocError> {
    let watcher = Counting {
        count,
        until,
        reports,
        drops: drops.clone()?,
    };
    let mut watchers: Vec<Box<dyn Watcher>> = Vec::new(alloc);
    watchers.push(Box::new(alloc, watcher)?)?;
    Ok(watchers)
}

/// Words, a count that a watcher of one's own begins with and until which it watches, an input, what is written, and the
/// status.
struct Counted {
    words: &'static [&'static str],
    count: u64,
    until: u64,
    input: &'static [u8],
    text: &'static [u8],
    status: u8,
}

/// However a run ends, and also where the count comes to the greatest number.
const COUNTED: &[Counted] = &[
    Counted {
        words: REPLAY,
        count: 0,
        until: 8,
        input: b"downlink FF\nsi9 00\n",
        text: b"no 1 bit\nbits 8\nbad 5\n",
        status: 1,
    },
    Counted {
        words: REPLAY,
        count: 0,
        until: 9,
        input: b"downlink FF\n",
        text: b"no 1 bit\nbits 8\n",
        status: 1,
    },
    Counted {
        words: REPLAY,
        count: u64::MAX - 1,
        until: u64::MAX,
        input: b"downlink FF\n",
        text: b"no 1 bit\nbits 18446744073709551615\n",
        status: 1,
    },
    Counted {
        words: &["segments", "received"],
        count: 0,
        until: 8,
        input: b"",
        text: b"",
        status: 0,
    },
    Counted {
        words: &["replay", "both"],
        count: 0,
        until: 8,
        input: b"",
        text: b"",
        status: 2,
    },
];

/// The run of a row, and how often its watcher was dropped.
fn ran_counted(alloc: Global, row: &Counted) -> Result<(Ran, u32), AllocError> {
    let drops = Rc::new(alloc, Cell::new(0))?;
    let watchers = of_counting(alloc, row.count, row.until, true, &drops)?;
    let input = Vec::from_slice(alloc, row.input)?;
    let ran = ran_watched(alloc, row.words, BTreeMap::new(alloc), input, watchers)?;
    Ok((ran, drops.get()))
}

/// The run wrote this text, ended with this status, and dropped its watcher once.
fn expect_dropped(rt: &impl Abort, ran: &Ran, drops: u32, text: &[u8], status: u8) {
    assert_eq!(rt;
        (drops, ran.ended.status(), ran.text.as_slice()),
        (1, status, text)
    );
}

#[test]
fn a_watcher_is_dropped_once(rt: HostRuntime) -> Result<(), Fail> {
    for row in COUNTED {
        let (ran, drops) = ran_counted(rt.alloc(), row)?;
        expect_dropped(&rt, &ran, drops, row.text, row.status);
    }
    Ok(())
}

/// A count that a watcher of one's own begins with and until which it watches, which call of a sink of three bytes a call
/// fails, what `tell` answers, what `close` does, which is not called behind a fault, and what is written.
type Ending = (u64, u64, u32, Told, Option<Told>, &'static [u8]);

/// However the calls of the library end, and also where the count comes to the greatest number.
const ENDINGS: &[Ending] = &[
    (0, 8, 9, Told::Ok, Some(Told::Ok), b"bits 8\n"),
    (0, 9, 9, Told::Ok, Some(Told::Ok), b"bits 8\n"),
    (
        u64::MAX - 1,
        u64::MAX,
        9,
        Told::Ok,
        Some(Told::Ok),
        b"bits 18446744073709551615\n",
    ),
    (0, 8, 0, Told::WriteFault, None, b""),
    (0, 8, 1, Told::WriteFault, None, b"bit"),
    (0, 9, 1, Told::Ok, Some(Told::WriteFault), b"bit"),
];

/// What `tell` answers for a block of eight bits, and then `close`, which is not called behind a fault of the sink.
fn told_and_closed(
    alloc: Global,
    watchers: Vec<Box<dyn Watcher>>,
    out: &mut MemSink,
) -> (Told, Option<Told>)
    requires { ⟦<MemSink as Sink>⟧.faults out.old ≡ 0 }
{
    let seen = Seen {
        entry: Entry::Si1,
        bits: 8,
        ok: true,
    };
    let mut watchers = watchers;
    let told = tell(alloc, &mut watchers, &seen, out);
    if told == Told::WriteFault {
        return (told, None);
    }
    (told, Some(close(alloc, watchers, out)))
}

#[test]
fn a_watcher_is_dropped_once_on_every_end(rt: HostRuntime) -> Result<(), Fail> {
    let alloc = rt.alloc();
    for &(count, until, failing, told, closed, text) in ENDINGS {
        let drops = Rc::new(alloc, Cell::new(0))?;
        let mut out = MemSink::new(alloc, 3, vec![in alloc; failing]?);
        let watchers = of_counting(alloc, count, until, true, &drops)?;
        let given = told_and_closed(alloc, watchers, &mut out);
        assert_eq!(rt;
            (given, drops.get(), out.taken()),
            ((told, closed), 1, text)
        );
    }
    Ok(())
}

/// A run of `replay received` with a watcher of bits until some number, over a source of 7 bytes a call and a sink of 4,
/// and how often the watcher was dropped.
fn ran_in_sevens(
    alloc: Global,
    input: &[u8],
    until: u64,
    reports: bool,
    failing: Failing,
) -> Result<(Ran, u32), AllocError> {
    let drops = Rc::new(alloc, Cell::new(0))?;
    let watchers = of_counting(alloc, 0, until, reports, &drops)?;
    let files = BTreeMap::new(alloc);
    let input = Vec::from_slice(alloc, input)?;
    let ran = ran_over(alloc, REPLAY, files, input, 7, 4, failing, watchers)?;
    Ok((ran, drops.get()))
}

/// An input, until which count it is watched, and what is written where the third call of the source fails: the lines that
/// had ended are answered, with the reports that they caused, and nothing else.
const CUT: &[(&[u8], u64, &[u8])] = &[
    (b"downlink FF\nsi9 00\nia GG\n", 9, b"no 1 bit\n"),
    (b"downlink FF\nsi9 00\nia GG\n", 8, b"no 1 bit\nbits 8\n"),
    (b"si9 00\nia GG\ndownlink FF\n", 8, b"bad 5\nbad 1 0\n"),
    (b"si9 00\nia GG", 8, b"bad 5\n"),
    (b"downlink FF", 8, b""),
];

#[test]
fn a_source_that_fails_ends_the_reports(rt: HostRuntime) -> Result<(), Fail> {
    let alloc = rt.alloc();
    for &(input, until, text) in CUT {
        let failing = Call::Take.failing(alloc, 2)?;
        let (ran, drops) = ran_in_sevens(alloc, input, until, true, failing)?;
        expect_dropped(&rt, &ran, drops, text, 5);
    }
    Ok(())
}

/// Until which count is watched, whether there is memory for the report, which call fails, the status, and what the whole
/// run would write.
struct Stopped {
    until: u64,
    reports: bool,
    call: Option<(Call, u32)>,
    status: u8,
    text: &'static [u8],
}

/// Runs that a fault or a want of memory stops before their end, behind a line or at the end.
const STOPPED: &[Stopped] = &[
    Stopped {
        until: 8,
        reports: true,
        call: Some((Call::Take, 0)),
        status: 5,
        text: b"no 1 bit\nbits 8\nbad 5\n",
    },
    Stopped {
        until: 8,
        reports: true,
        call: Some((Call::Put, 0)),
        status: 6,
        text: b"no 1 bit\nbits 8\nbad 5\n",
    },
    Stopped {
        until: 8,
        reports: true,
        call: Some((Call::Put, 3)),
        status: 6,
        text: b"no 1 bit\nbits 8\nbad 5\n",
    },
    Stopped {
        until: 8,
        reports: false,
        call: None,
        status: 7,
        text: b"no 1 bit\nbits 8\nbad 5\n",
    },
    Stopped {
        until: 9,
        reports: false,
        call: None,
        status: 7,
        text: b"no 1 bit\nbad 5\nbits 8\n",
    },
    Stopped {
        until: 9,
        reports: true,
        call: Some((Call::Put, 4)),
        status: 6,
        text: b"no 1 bit\nbad 5\nbits 8\n",
    },
];

/// The calls that fail in a row.
fn failing_as(alloc: Global, call: Option<(Call, u32)>) -> Result<Failing, AllocError> {
    match call {
        Some((call, number)) => call.failing(alloc, number),
        None => Ok(Failing::none(alloc)),
    }
}

/// The run of a row.
fn ran_stopped(alloc: Global, row: &Stopped) -> Result<(Ran, u32), AllocError> {
    let failing = failing_as(alloc, row.call)?;
    let input = b"downlink FF\nsi9 00\n";
    ran_in_sevens(alloc, input, row.until, row.reports, failing)
}

/// A run that is stopped has written a front of the whole text, and its watcher is dropped once.
#[test]
fn a_watcher_is_dropped_once_where_a_run_stops(rt: HostRuntime) -> Result<(), Fail> {
    for row in STOPPED {
        let (ran, drops) = ran_stopped(rt.alloc(), row)?;
        let is_front = row.text.starts_with(&ran.text);
        assert_eq!(rt;
            (ran.ended.status(), is_front, drops),
            (row.status, true, 1)
        );
    }
    Ok(())
}

/// Two watchers of one's own, until 8 and until 9 bits.
fn two_counting(alloc: Global, drops: &Rc<Cell<u32>>) -> Result<Vec<Box<dyn Watcher>>, AllocError> {
    let mut watchers = of_counting(alloc, 0, 8, true, drops)?;
    watchers.append(&mut of_counting(alloc, 0, 9, true, drops)?)?;
    Ok(watchers)
}

/// A refused block, and lines of no entry, of more bytes in all than an input may have.
fn long_capture(alloc: Global) -> Result<Vec<u8>, AllocError> {
    let mut input = Vec::from_slice(alloc, b"downlink FF\n")?;
    input.extend_from_slice(&lines(alloc, b'x', 16_777_216)?)?;
    Ok(input)
}

/// The answers to the lines of it that end within the limit, with the report of the watcher that is done.
fn answers_of_it(alloc: Global) -> Result<Vec<u8>, AllocError> {
    let mut text = Vec::from_slice(alloc, b"no 1 bit\nbits 8\n")?;
    text.extend_from_slice(&repeated(alloc, b"bad 5\n", 255)?)?;
    Ok(text)
}

/// Of an input past its limit the lines within it are answered, and no watcher reports at the end.
#[test]
fn no_watcher_reports_behind_the_limit(rt: HostRuntime) -> Result<(), Fail> {
    let alloc = rt.alloc();
    let drops = Rc::new(alloc, Cell::new(0))?;
    let watchers = two_counting(alloc, &drops)?;
    let input = long_capture(alloc)?;
    let ran = ran_watched(alloc, REPLAY, BTreeMap::new(alloc), input, watchers)?;
    let text = answers_of_it(alloc)?;
    assert_eq!(rt;
        (drops.get(), ran.ended.status(), ran.text.as_slice()),
        (2, 8, text.as_slice())
    );
    Ok(())
}
