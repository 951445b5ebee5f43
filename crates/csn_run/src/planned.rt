//! From the words that name a rule to its plan, or to the line that says why there is none.

ghost use Rattle.std.specs.Prelude.{◌≡◌, ◌≢◌, ◌⊎◌, ◌+◌, ◌<◌, ◌++◌, ◌∷◌, [], List, ℕ, Ok, Err, IfOk, IfErr, length};
ghost use Rattle.csn_io.specs.ShelfFault.{BeginsFile, LacksFile};
ghost use Rattle.csn_lines.specs.declared.lines.TheConstants.{LINE_FEED};
ghost use Rattle.csn_plan.specs.declared.compiling.TheConstants.{MOST_DESCRIPTION};
ghost use Rattle.csn_run.specs.declared.planned.Unplanned.TheVariants.{File, Text};
ghost use Rattle.csn_run.specs.Job.{GivesDescription, IsDescription, IsLonger, IsWhole};
ghost use Rattle.csn_run.specs.Outside.{CannotRead, KeepsShelf, LeftByFetch};
ghost use Rattle.csn_run.specs.Planned.{IsPlanned, IsWhy, Refuses};

use csn_certify::{CertifyFault, Plan};
use csn_command::RuleWords;
use csn_io::{Shelf, ShelfFault};
use csn_lines::{Fault, LINE_FEED};
use csn_plan::{Ended, MOST_DESCRIPTION, NoPlan, TextPlan, plan_text, push_reason};
use std::alloc::{AllocError, Global};

/// Why a run has no plan.
#[derive(Drop)]
pub enum Unplanned {
    /// The file was not fetched.
    File(Fault),
    /// Its text gives the rule none.
    Text(NoPlan),
}

impl From<Fault> for Unplanned {
    ghost from_gives = { λ fault why. why ≡ File fault };

    fn from(fault: Fault) -> Unplanned {
        Unplanned::File(fault)
    }
}

impl From<NoPlan> for Unplanned {
    ghost from_gives = { λ reason why. why ≡ Text reason };

    fn from(reason: NoPlan) -> Unplanned {
        Unplanned::Text(reason)
    }
}

/// Fetches a file that may have so many bytes.
pub fn whole_file<B: Shelf>(
    alloc: Global,
    shelf: &mut B,
    file: &str,
    most: u32,
) -> Result<Vec<u8>, Fault>
    requires { most < 4294967295 }
    ensures whole { IfOk result (λ text. IsWhole most (B.files shelf.old) file.now text.items) }
    ensures read { result ≡ Err Fault.Read
        → CannotRead B.Shelf shelf.old shelf.new file.now }
    ensures too_long { result ≡ Err Fault.TooLong → IsLonger most (B.files shelf.old) file.now }
    ensures not_write { result ≢ Err Fault.Write }
    ensures missing { LacksFile (B.files shelf.old) file.now → (result ≡ Err Fault.Read) ⊎ (result ≡ Err Fault.Memory) }
    ensures fetched { LeftByFetch B.Shelf file.now most shelf.old shelf.new }
    ensures given { IfOk result (λ text. B.fetch_gives shelf.old file.now (most + 1) (Ok text) shelf.new) }
    ensures files { B.files shelf.new ≡ B.files shelf.old }
    ensures shelf { KeepsShelf B.Shelf shelf.old shelf.new (result ≡ Err Fault.Read) }
{
    match shelf.fetch(alloc, file, most + 1) {
        Ok(text) if text.len() <= most as usize => Ok(text),
        Ok(_) => Err(Fault::TooLong),
        Err(ShelfFault::Missing) => Err(Fault::Read),
        Err(ShelfFault::Failed) => Err(Fault::Read),
        Err(ShelfFault::NoMemory) => Err(Fault::Memory),
    }
}

/// Fetches a description.
pub fn description<B: Shelf>(alloc: Global, shelf: &mut B, file: &str) -> Result<Vec<u8>, Fault>
    ensures whole { IfOk result (λ text. IsDescription (B.files shelf.old) file.now text.items) }
    ensures read { result ≡ Err Fault.Read
        → CannotRead B.Shelf shelf.old shelf.new file.now }
    ensures too_long { result ≡ Err Fault.TooLong
        → (front : List ℕ) × BeginsFile (B.files shelf.old) file.now (MOST_DESCRIPTION + 1) front × (MOST_DESCRIPTION < length front) }
    ensures not_write { result ≢ Err Fault.Write }
    ensures missing { LacksFile (B.files shelf.old) file.now → (result ≡ Err Fault.Read) ⊎ (result ≡ Err Fault.Memory) }
    ensures fetched { LeftByFetch B.Shelf file.now MOST_DESCRIPTION shelf.old shelf.new }
    ensures given { IfOk result (λ text. GivesDescription B.Shelf file.now text.items shelf.old shelf.new) }
    ensures files { B.files shelf.new ≡ B.files shelf.old }
    ensures shelf { KeepsShelf B.Shelf shelf.old shelf.new (result ≡ Err Fault.Read) }
{
    whole_file(alloc, shelf, file, MOST_DESCRIPTION)
}

/// The plan of the rule that the words name.
pub fn plan_of<B: Shelf>(
    alloc: Global,
    shelf: &mut B,
    rule: RuleWords<'_>,
) -> Result<Plan, Unplanned>
    ensures plan { IfOk result (IsPlanned (B.files shelf.old) rule.entry) }
    ensures none { IfErr result (IsWhy (B.files shelf.old) rule.entry) }
    ensures read { result ≡ Err (Unplanned.File Fault.Read)
        → CannotRead B.Shelf shelf.old shelf.new rule.entry.file.now }
    ensures missing { LacksFile (B.files shelf.old) rule.entry.file.now
        → (result ≡ Err (Unplanned.File Fault.Read)) ⊎ (result ≡ Err (Unplanned.File Fault.Memory)) }
    ensures fetched { LeftByFetch B.Shelf rule.entry.file.now MOST_DESCRIPTION shelf.old shelf.new }
    ensures shelf { KeepsShelf B.Shelf shelf.old shelf.new (result ≡ Err (Unplanned.File Fault.Read)) }
{
    let text = description(alloc, shelf, rule.file)?;
    Ok(plan_text(alloc, &text, rule.name.as_bytes(), rule.reading)?)
}

/// The same, with what its nodes write of a tree, by which lines are answered.
pub fn text_plan_of<B: Shelf>(
    alloc: Global,
    shelf: &mut B,
    rule: RuleWords<'_>,
) -> Result<TextPlan, Unplanned>
    ensures plan { IfOk result (IsPlanned (B.files shelf.old) rule.entry) }
    ensures none { IfErr result (IsWhy (B.files shelf.old) rule.entry) }
    ensures read { result ≡ Err (Unplanned.File Fault.Read)
        → CannotRead B.Shelf shelf.old shelf.new rule.entry.file.now }
    ensures missing { LacksFile (B.files shelf.old) rule.entry.file.now
        → (result ≡ Err (Unplanned.File Fault.Read)) ⊎ (result ≡ Err (Unplanned.File Fault.Memory)) }
    ensures fetched { LeftByFetch B.Shelf rule.entry.file.now MOST_DESCRIPTION shelf.old shelf.new }
    ensures shelf { KeepsShelf B.Shelf shelf.old shelf.new (result ≡ Err (Unplanned.File Fault.Read)) }
{
    let plan = plan_of(alloc, shelf, rule)?;
    match TextPlan::new(alloc, plan) {
        Ok(made) => Ok(made),
        Err(_) => Err(Unplanned::Text(NoPlan::Plan(CertifyFault::NoMemory))),
    }
}

/// Writes a line feed behind a line, or forgets the line where there was no memory for it.
pub fn end_line(line: Result<Ended, AllocError>, pending: &mut Vec<u8>) -> Result<Ended, Fault>
    ensures ok { IfOk result (λ ended. (line ≡ Ok ended) × (pending.new.items ≡ pending.old.items ++ LINE_FEED ∷ [])) }
    ensures err { IfErr result (λ fault. (fault ≡ Fault.Memory) × (pending.new.items ≡ [])) }
{
    match line {
        Ok(ended) if pending.push(LINE_FEED).is_ok() => Ok(ended),
        _ => {
            pending.clear();
            Err(Fault::Memory)
        }
    }
}

/// Writes the line that says why there is no plan, where the text of the file says why.
pub fn refuse(why: Unplanned, pending: &mut Vec<u8>) -> Result<Ended, Fault>
    requires { pending.old.items ≡ [] }
    ensures { Refuses why pending.new.items result }
{
    match why {
        Unplanned::File(fault) => Err(fault),
        Unplanned::Text(reason) => {
            let line = push_reason(&reason, pending);
            end_line(line, pending)
        }
    }
}
