//! From the words that name a rule to its plan, or to the line that says why there is none.

ghost use Rattle.std.specs.Prelude.{◌≡◌, ◌≢◌, ◌⊎◌, ◌≤◌, Err, IfOk, length};
ghost use Rattle.csn_io.specs.Faults.{Keeps};
ghost use Rattle.csn_io.specs.ShelfFault.{LacksFile};
ghost use Rattle.csn_plan.specs.declared.compiling.TheConstants.{MOST_DESCRIPTION};
ghost use Rattle.csn_lines.specs.declared.fault.Fault.{Fault};
ghost use Rattle.csn_companion.specs.declared.opening.Unplanned.TheVariants.{File};
ghost use Rattle.csn_companion.specs.Outside.{CannotRead, IsFinished};

use crate::asked::Asked;
use csn_certify::Plan;
use csn_io::{Shelf, ShelfFault};
use csn_lines::{Fault, LINE_FEED};
use csn_plan::{Ended, MOST_DESCRIPTION, NoPlan, plan_text, push_reason};
use std::alloc::{AllocError, Global};

/// Why there is no plan.
#[derive(Drop)]
pub enum Unplanned {
    /// The file was not fetched.
    File(Fault),
    /// Its text gives the rule none.
    Text(NoPlan),
}

impl From<Fault> for Unplanned {
    ghost from_gives = { λ fault why. why ≡ File fault };

    fn from(fault: Fault) -> Unplanned {
        Unplanned::File(fault)
    }
}

/// Fetches a description.
pub fn fetch_text<B: Shelf>(alloc: Global, shelf: &mut B, file: &str) -> Result<Vec<u8>, Fault>
    ensures fits { IfOk result (λ text. length text.items ≤ MOST_DESCRIPTION) }
    ensures read { result ≡ Err Fault.Read
        → CannotRead (B.files shelf.old) (B.faults shelf.old) (B.faults shelf.new) (B.last_fault shelf.new) file.now }
    ensures not_write { result ≢ Err Fault.Write }
    ensures missing { LacksFile (B.files shelf.old) file.now → (result ≡ Err Fault.Read) ⊎ (result ≡ Err Fault.Memory) }
    ensures shelf { Keeps (B.steady shelf.old) (B.steady shelf.new) (B.faults shelf.old) (B.faults shelf.new) (result ≡ Err Fault.Read) }
{
    match shelf.fetch(alloc, file, MOST_DESCRIPTION + 1) {
        Ok(text) if text.len() <= MOST_DESCRIPTION as usize => Ok(text),
        Ok(_) => Err(Fault::TooLong),
        Err(ShelfFault::Missing) => Err(Fault::Read),
        Err(ShelfFault::Failed) => Err(Fault::Read),
        Err(ShelfFault::NoMemory) => Err(Fault::Memory),
    }
}

/// The plan of the rule that is asked for.
pub fn plan_of<B: Shelf>(alloc: Global, shelf: &mut B, asked: Asked<'_>) -> Result<Plan, Unplanned>
    ensures read { result ≡ Err (Unplanned.File Fault.Read)
        → CannotRead (B.files shelf.old) (B.faults shelf.old) (B.faults shelf.new) (B.last_fault shelf.new) asked.entry.file.now }
    ensures not_write { result ≢ Err (Unplanned.File Fault.Write) }
    ensures missing { LacksFile (B.files shelf.old) asked.entry.file.now
        → (result ≡ Err (Unplanned.File Fault.Read)) ⊎ (result ≡ Err (Unplanned.File Fault.Memory)) }
    ensures shelf { Keeps (B.steady shelf.old) (B.steady shelf.new) (B.faults shelf.old) (B.faults shelf.new) (result ≡ Err (Unplanned.File Fault.Read)) }
{
    let text = fetch_text(alloc, shelf, asked.file)?;
    match plan_text(alloc, &text, asked.name.as_bytes(), asked.reading) {
        Ok(plan) => Ok(plan),
        Err(reason) => Err(Unplanned::Text(reason)),
    }
}

/// Writes the line that tells a reason, and tells the end of the run.
pub fn push_line(reason: &NoPlan, pending: &mut Vec<u8>) -> Result<Ended, AllocError>
    ensures { IfOk result IsFinished }
{
    let ended = push_reason(reason, pending)?;
    pending.push(LINE_FEED)?;
    Ok(ended)
}

/// Writes the line that says why there is no plan, where the text of the file says why.
pub fn refuse(why: Unplanned, pending: &mut Vec<u8>) -> Result<Ended, Fault>
    ensures finished { IfOk result IsFinished }
    ensures file { (fault : Fault) → why ≡ Unplanned.File fault → result ≡ Err fault }
    ensures read { result ≡ Err Fault.Read → why ≡ Unplanned.File Fault.Read }
    ensures write { result ≡ Err Fault.Write → why ≡ Unplanned.File Fault.Write }
{
    match why {
        Unplanned::File(fault) => Err(fault),
        Unplanned::Text(reason) => match push_line(&reason, pending) {
            Ok(ended) => Ok(ended),
            Err(AllocError) => {
                pending.clear();
                Err(Fault::Memory)
            }
        },
    }
}
