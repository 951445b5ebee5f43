ghost use Rattle.std.specs.Prelude.{◌≡◌, ◌≢◌, ◌↔◌, ◌<◌, ◌+◌, ◌++◌, true, IfSome, IfNone, IfOk, List, map, codes, vec_len, length};
ghost use Rattle.std.specs.Option.{option_map};
ghost use Rattle.csn_io.specs.Faults.{Keeps, Rose};
ghost use Rattle.csn_replay.specs.Told.{Wrote};
ghost use Rattle.csn_replay.specs.Watched.{Watched, Showed, counted, is_done, still_watching, done_watching, report_line, reports};
ghost use Rattle.csn_replay.specs.declared.seen.Go.TheVariants.{Done};
ghost use Rattle.csn_replay.specs.declared.told.Told.TheVariants.{WriteFault};

use crate::output::put_all;
use crate::seen::{Go, Seen};
use crate::told::Told;
use crate::watcher::Watcher;
use csn_bits::NoMemory;
use csn_io::Sink;
use std::alloc::Global;

/// Shows a block to a watcher.
fn show_one(watcher: &mut Box<dyn Watcher>, seen: &Seen) -> Go
    ensures counted { watched watcher.new ≡ counted seen.now (watched watcher.old) }
    ensures done { (result ≡ Done) ↔ (is_done (watched watcher.new) ≡ true) }
{
    watcher.see(seen)
}

/// Shows a block to the watcher at this place, and takes it out where it is done.
fn show(watchers: &mut Vec<Box<dyn Watcher>>, at: usize, seen: &Seen) -> Option<Box<dyn Watcher>>
    requires { at < vec_len watchers.old }
    ensures showed { (before : List Watched) → (others : List Watched) → length before ≡ at
        → map (λ b. watched b) watchers.old.items ≡ before ++ others
        → Showed seen.now before others (option_map (λ b. watched b) result) (map (λ b. watched b) watchers.new.items) }
    ensures stayed { IfNone result (vec_len watchers.new ≡ vec_len watchers.old) }
    ensures taken_out { IfSome result (λ _. vec_len watchers.new + 1 ≡ vec_len watchers.old) }
{
    match show_one(&mut watchers[at], seen) {
        Go::Stay => None,
        Go::Done => Some(watchers.remove(at)),
    }
}

/// The report line of a watcher, and a line feed.
fn fed_line(alloc: Global, watcher: &Box<dyn Watcher>) -> Result<Vec<u8>, NoMemory>
    ensures { IfOk result (λ line. line.items ≡ report_line (watched watcher.now) ++ codes "\n") }
{
    let mut line = watcher.report_line(alloc)?;
    line.push(b'\n')?;
    Ok(line)
}

/// Writes the report line of a watcher, and a line feed.
fn report<K: Sink>(alloc: Global, watcher: &Box<dyn Watcher>, out: &mut K) -> Told
    requires unfailed { K.faults out.old ≡ 0 }
    ensures wrote { Wrote result (K.taken out.old) (K.taken out.new) (report_line (watched watcher.now) ++ codes "\n") }
    ensures write_fault { result ≡ WriteFault → Rose (K.faults out.old) (K.faults out.new) }
    ensures outside { Keeps (K.steady out.old) (K.steady out.new) (K.faults out.old) (K.faults out.new) (result ≡ WriteFault) }
    ensures steady_no_fault { K.steady out.old → result ≢ WriteFault }
{
    match fed_line(alloc, watcher) {
        Ok(line) => put_all(&line, out),
        Err(_) => Told::NoMemory,
    }
}

/// Shows a block to all watchers in order. One that is done reports on a line of its own, and is dropped; the others
/// stay in their order. After a fault no report is written any more, but the block is shown to all.
pub fn tell<K: Sink>(
    alloc: Global,
    watchers: &mut Vec<Box<dyn Watcher>>,
    seen: &Seen,
    out: &mut K,
) -> Told
    requires unfailed { K.faults out.old ≡ 0 }
    ensures watchers { map (λ b. watched b) watchers.new.items ≡ still_watching seen.now (map (λ b. watched b) watchers.old.items) }
    ensures wrote { Wrote result (K.taken out.old) (K.taken out.new) (reports (done_watching seen.now (map (λ b. watched b) watchers.old.items))) }
    ensures write_fault { result ≡ WriteFault → Rose (K.faults out.old) (K.faults out.new) }
    ensures outside { Keeps (K.steady out.old) (K.steady out.new) (K.faults out.old) (K.faults out.new) (result ≡ WriteFault) }
    ensures steady_no_fault { K.steady out.old → result ≢ WriteFault }
{
    let mut told = Told::Ok;
    let mut at = 0;
    while at < watchers.len() {
        match show(watchers, at, seen) {
            None => at += 1,
            Some(watcher) => match told {
                Told::Ok => told = report(alloc, &watcher, out),
                Told::WriteFault | Told::NoMemory => {}
            },
        }
    }
    told
}

/// Lets all watchers report in order, each on a line of its own, and drops them. After a fault the sink has taken a prefix
/// of the reports.
pub fn close<K: Sink>(alloc: Global, watchers: Vec<Box<dyn Watcher>>, out: &mut K) -> Told
    requires unfailed { K.faults out.old ≡ 0 }
    ensures wrote { Wrote result (K.taken out.old) (K.taken out.new) (reports (map (λ b. watched b) watchers.items)) }
    ensures write_fault { result ≡ WriteFault → Rose (K.faults out.old) (K.faults out.new) }
    ensures outside { Keeps (K.steady out.old) (K.steady out.new) (K.faults out.old) (K.faults out.new) (result ≡ WriteFault) }
    ensures steady_no_fault { K.steady out.old → result ≢ WriteFault }
{
    for watcher in watchers {
        match report(alloc, &watcher, out) {
            Told::Ok => {}
            told => return told,
        }
    }
    Told::Ok
}
