//! The open line of a capture, of which the block is written as a text while it comes, by the plan of its entry.

ghost use Rattle.std.specs.Prelude.{◌≡◌, ◌+◌, ◌<◌, ◌≤◌, ◌++◌, [], List, ℕ, length, map, not, IfOk, OnOk, OnErr};
ghost use Rattle.std.specs.Option.{option_map};
ghost use Rattle.csn_catalogue.specs.Entries.{entry_place};
ghost use Rattle.csn_lines.specs.declared.lines.TheConstants.{MOST_INPUT};
ghost use Rattle.csn_lines.specs.Language.{of_plans};
ghost use Rattle.csn_lines.specs.Lines.{is_refusal, is_refused};
ghost use Rattle.csn_lines.specs.OutLine.{CaptureLine};
ghost use Rattle.csn_lines.specs.Replaying.{AreFresh, AreTexts, ReadsCapture, desc_of};

use crate::lines::Answered;
use crate::show::answer_line;
use csn_catalogue::Entry;
use csn_movetext::{LineText, TreeForm};
use csn_plan::TextPlan;
use csn_replay::{CaptureHead, Seen};
use std::alloc::{AllocError, Global};
use std::mem;

/// What writes the blocks of each entry, in their order, and how far the head of the open line was read.
#[derive(Drop)]
pub struct CaptureText<'a> {
    writers: Vec<LineText<'a>>,
    head: CaptureHead,
    ghost all: { length writers.items ≡ 7 },
    ghost texts: { AreTexts writers.items },
}

fn is_given(answered: Answered) -> bool
    ensures { result ≡ not (is_refused answered) }
{
    match answered {
        Answered::Given => true,
        Answered::Refused => false,
    }
}

/// Where an entry stands among all entries.
fn place_of(entry: Entry) -> usize
    ensures place { result ≡ entry_place entry }
    ensures within { result < 7 }
{
    entry as usize
}

/// What watchers are shown of a line whose block, if it has one, has so many bits.
fn seen_of(entry: Entry, bits: Option<u32>, answered: Answered) -> Option<Seen>
    ensures { result ≡ option_map (λ n. record { entry = entry; bits = n; ok = not (is_refused answered) }) bits }
{
    Some(Seen {
        entry,
        bits: bits?,
        ok: is_given(answered),
    })
}

/// What writes the blocks of each entry, by the plans of the entries.
fn writers_of(alloc: Global, plans: &[TextPlan]) -> Result<Vec<LineText<'_>>, AllocError>
    ensures descs { IfOk result (λ writers. map desc_of writers.items ≡ plans.now) }
    ensures texts { IfOk result (λ writers. AreTexts writers.items) }
    ensures fresh { IfOk result (λ writers. AreFresh writers.items) }
{
    let mut writers = Vec::new(alloc);
    for plan in plans {
        if writers.push(plan.line_text(alloc, TreeForm::Text)).is_err() {
            return Err(AllocError);
        }
    }
    Ok(writers)
}

impl<'a> CaptureText<'a> {
    /// Nothing of a line.
    pub fn new(alloc: Global, plans: &'a [TextPlan]) -> Result<CaptureText<'a>, AllocError>
        requires { length plans.now ≡ 7 }
        ensures descs { IfOk result (λ text. map desc_of text.writers.items ≡ plans.now) }
        ensures reads { IfOk result (λ text. ReadsCapture text.writers.items text.head []) }
    {
        Ok(CaptureText {
            writers: writers_of(alloc, plans)?,
            head: CaptureHead::new(),
        })
    }

    /// The next bytes of the line.
    pub fn take(&mut self, bytes: &[u8])
        requires { (line : List ℕ) × ReadsCapture self.old.writers.items self.old.head line × (length line + length bytes.now ≤ MOST_INPUT) }
        ensures reads { (line : List ℕ) → ReadsCapture self.old.writers.items self.old.head line
            → ReadsCapture self.new.writers.items self.new.head (line ++ bytes.now) }
        ensures descs { map desc_of self.new.writers.items ≡ map desc_of self.old.writers.items }
    {
        csn_replay::laws::heads_tell_captures();
        let from = self.head.take(bytes);
        if let CaptureHead::Block(entry) = &self.head {
            self.writers[place_of(*entry)].take(&bytes[from..]);
        }
    }

    /// Ends a line: writes what its block is shown as, or why it has none, and tells what watchers are shown.
    pub fn answer(&mut self, out: &mut Vec<u8>) -> Result<(Answered, Option<Seen>), AllocError>
        ensures ok { IfOk result (λ told. (line : List ℕ) → ReadsCapture self.old.writers.items self.old.head line → (answer : List ℕ)
            × (out.new.items ≡ out.old.items ++ answer) × CaptureLine (of_plans (map desc_of self.old.writers.items)) line answer told.1
            × (is_refused told.0 ≡ is_refusal answer)) }
        ensures anew { OnOk result ((line : List ℕ) → ReadsCapture self.old.writers.items self.old.head line
            → ReadsCapture self.new.writers.items self.new.head []) }
        ensures descs { map desc_of self.new.writers.items ≡ map desc_of self.old.writers.items }
        ensures err { OnErr result ((line : List ℕ) → ReadsCapture self.old.writers.items self.old.head line
            → (tail : List ℕ) × (out.new.items ≡ out.old.items ++ tail)) }
    {
        csn_replay::laws::heads_tell_captures();
        let head = mem::replace(&mut self.head, CaptureHead::new());
        let CaptureHead::Block(entry) = head else {
            out.extend_from_slice(b"bad 5")?;
            return Ok((Answered::Refused, None));
        };
        let (answered, bits) = answer_line(&mut self.writers[place_of(entry)], out)?;
        Ok((answered, seen_of(entry, bits, answered)))
    }
}
