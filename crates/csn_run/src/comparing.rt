//! Whether a new description takes the blocks of an old one.

ghost use Rattle.std.specs.Prelude.{◌≡◌, ◌≢◌, ◌⊎◌, ◌≤◌, ◌++◌, [], List, ℕ, Err, IfOk, IfErr, Option, length};
ghost use Rattle.csn_io.specs.ShelfFault.{LacksFile};
ghost use Rattle.csn_replay.specs.Watched.{Watched};
ghost use Rattle.csn_plan.specs.declared.compiling.TheConstants.{MOST_DESCRIPTION};
ghost use Rattle.csn_command.specs.Command.{IsRowOf};
ghost use Rattle.csn_run.specs.Told.{Compares};
ghost use Rattle.csn_run.specs.Job.{ComesTo, FetchesInOrder, IsDescription, JobEnds};
ghost use Rattle.csn_run.specs.Ran.{FileFails};
ghost use Rattle.csn_run.specs.Outside.{CannotRead, KeepsShelf};
ghost use Rattle.csn_run.specs.Planned.{ComparesTexts, IsLongPair};

use crate::planned::{Unplanned, description, end_line, refuse};
use csn_command::{Command, PairWords};
use csn_compat::compat;
use csn_desc::Desc;
use csn_io::Shelf;
use csn_lines::Fault;
use csn_plan::{Ended, MOST_DESCRIPTION, certified_text};
use std::alloc::{AllocError, Global};

/// The texts of two descriptions.
#[derive(Drop)]
struct Texts {
    before: Vec<u8>,
    after: Vec<u8>,
}

/// Fetches the old description, and then the new one.
fn texts_of<B: Shelf>(alloc: Global, pair: PairWords<'_>, shelf: &mut B) -> Result<Texts, Fault>
    ensures before { IfOk result (λ texts. IsDescription (B.files shelf.old) pair.entry.before.now texts.before.items) }
    ensures after { IfOk result (λ texts. IsDescription (B.files shelf.old) pair.entry.after.now texts.after.items) }
    ensures read { result ≡ Err Fault.Read
        → CannotRead B.Shelf shelf.old shelf.new pair.entry.before.now
        ⊎ (text : List ℕ) × IsDescription (B.files shelf.old) pair.entry.before.now text
        × CannotRead B.Shelf shelf.old shelf.new pair.entry.after.now }
    ensures too_long { result ≡ Err Fault.TooLong → IsLongPair (B.files shelf.old) pair.entry }
    ensures not_write { result ≢ Err Fault.Write }
    ensures fetched { (words : List (List ℕ)) → IsRowOf words (Command.Compat pair.entry)
        → FetchesInOrder B.Shelf words shelf.old shelf.new }
    ensures missing { LacksFile (B.files shelf.old) pair.entry.before.now → (result ≡ Err Fault.Read) ⊎ (result ≡ Err Fault.Memory) }
    ensures missing_after { (text : List ℕ) → IsDescription (B.files shelf.old) pair.entry.before.now text
        → LacksFile (B.files shelf.old) pair.entry.after.now → (result ≡ Err Fault.Read) ⊎ (result ≡ Err Fault.Memory) }
    ensures shelf { KeepsShelf B.Shelf shelf.old shelf.new (result ≡ Err Fault.Read) }
{
    let before = match description(alloc, shelf, pair.before) {
        Ok(text) => text,
        Err(fault) => return Err(fault),
    };
    match description(alloc, shelf, pair.after) {
        Ok(after) => Ok(Texts { before, after }),
        Err(fault) => Err(fault),
    }
}

/// Writes the line that tells whether the new description takes the blocks of the old one, without a line feed.
fn push_compared(was: &Desc, now: &Desc, out: &mut Vec<u8>) -> Result<Ended, AllocError>
    requires { was.now.reading ≡ now.now.reading }
    ensures ok { IfOk result (λ ended. (line : List ℕ) × (out.new.items ≡ out.old.items ++ line) × Compares was.now now.now line ended) }
{
    if compat(was, now) {
        out.extend_from_slice(b"ok compat")?;
        Ok(Ended::Done)
    } else {
        out.extend_from_slice(b"no compat")?;
        Ok(Ended::SomeRefused)
    }
}

/// Tells whether the rule of the new text takes the blocks of that of the old one; or why one of them has no certified
/// description, the old one first.
fn compare_texts(
    alloc: Global,
    pair: PairWords<'_>,
    texts: &Texts,
    pending: &mut Vec<u8>,
) -> Result<Ended, Fault>
    requires before { length texts.now.before.items ≤ MOST_DESCRIPTION }
    requires after { length texts.now.after.items ≤ MOST_DESCRIPTION }
    requires pending { pending.old.items ≡ [] }
    ensures { ComparesTexts texts.now.before.items texts.now.after.items pair.entry.name.now pair.entry.reading pending.new.items result }
{
    let name = pair.name.as_bytes();
    let was = match certified_text(alloc, &texts.before, name, pair.reading) {
        Ok(desc) => desc,
        Err(reason) => return refuse(Unplanned::Text(reason), pending),
    };
    let now = match certified_text(alloc, &texts.after, name, pair.reading) {
        Ok(desc) => desc,
        Err(reason) => return refuse(Unplanned::Text(reason), pending),
    };
    let line = push_compared(&was, &now, pending);
    end_line(line, pending)
}

/// Tells whether the rule of the new file takes the blocks of that of the old one.
pub fn compare_files<B: Shelf>(
    alloc: Global,
    pair: PairWords<'_>,
    shelf: &mut B,
    pending: &mut Vec<u8>,
) -> Result<Ended, Fault>
    requires pending { pending.old.items ≡ [] }
    ensures ends { (words : List (List ℕ)) → IsRowOf words (Command.Compat pair.entry) → (watchers : List Watched) (left taken : Option (List ℕ))
        → JobEnds words (B.files shelf.old) watchers left left taken taken pending.new.items result }
    ensures read { result ≡ Err Fault.Read → (words : List (List ℕ)) → IsRowOf words (Command.Compat pair.entry)
        → FileFails B.Shelf words shelf.old shelf.new }
    ensures not_write { result ≢ Err Fault.Write }
    ensures missing { (words : List (List ℕ)) (file : List ℕ) → IsRowOf words (Command.Compat pair.entry)
        → ComesTo words (B.files shelf.old) file → LacksFile (B.files shelf.old) file
        → ((result ≡ Err Fault.Read) ⊎ (result ≡ Err Fault.Memory)) × (pending.new.items ≡ []) }
    ensures fetched { (words : List (List ℕ)) → IsRowOf words (Command.Compat pair.entry)
        → FetchesInOrder B.Shelf words shelf.old shelf.new }
    ensures shelf { KeepsShelf B.Shelf shelf.old shelf.new (result ≡ Err Fault.Read) }
{
    match texts_of(alloc, pair, shelf) {
        Ok(texts) => compare_texts(alloc, pair, &texts, pending),
        Err(fault) => Err(fault),
    }
}
