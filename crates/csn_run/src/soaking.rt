//! What came of the blocks that the generator makes of an entry of the catalogue.

ghost use Rattle.std.specs.Prelude.{◌≡◌, ◌≢◌, ◌≤◌, ◌++◌, ◌∷◌, [], List, ℕ, Err, IfOk, IfErr, OnOk, Option};
ghost use Rattle.csn_soak.specs.declared.soaking.TheConstants.{MOST_BLOCKS};
ghost use Rattle.csn_replay.specs.Watched.{Watched};
ghost use Rattle.csn_lines.specs.declared.lines.TheConstants.{LINE_FEED};
ghost use Rattle.csn_command.specs.Command.{IsSoak};
ghost use Rattle.csn_plan.specs.Compiled.{line_of};
ghost use Rattle.csn_run.specs.Told.{soaked_line};
ghost use Rattle.csn_run.specs.Job.{JobEnds};

use crate::planned::{Unplanned, end_line, refuse};
use csn_catalogue::Entry;
use csn_desc::Reading;
use csn_lines::Fault;
use csn_plan::{Ended, plan_of_entry, push_numbers};
use csn_soak::{Soaked, soak};
use std::alloc::{AllocError, Global};

/// Writes a word, and how many there are of what it names.
fn push_counted(word: &[u8], count: u32, out: &mut Vec<u8>) -> Result<(), AllocError>
    ensures { OnOk result (out.new.items ≡ out.old.items ++ line_of word.now (count ∷ [])) }
{
    out.extend_from_slice(word)?;
    push_numbers(&[count], out)
}

/// Writes the line that tells what came of so many blocks, without a line feed.
fn push_soaked(blocks: u32, soaked: &Soaked, out: &mut Vec<u8>) -> Result<Ended, AllocError>
    ensures ok { IfOk result (λ ended. (ended ≡ Ended.Done) × (out.new.items ≡ out.old.items ++ soaked_line blocks soaked.now)) }
{
    push_counted(b"blocks", blocks, out)?;
    push_counted(b" ok", soaked.ok, out)?;
    push_counted(b" refused", soaked.refused, out)?;
    push_counted(b" bits", soaked.bits, out)?;
    Ok(Ended::Done)
}

/// Writes the line that tells what came of so many blocks.
fn tell_soaked(blocks: u32, soaked: &Soaked, pending: &mut Vec<u8>) -> Result<Ended, Fault>
    requires { pending.old.items ≡ [] }
    ensures ok { IfOk result (λ ended. (ended ≡ Ended.Done) × (pending.new.items ≡ soaked_line blocks soaked.now ++ LINE_FEED ∷ [])) }
    ensures err { IfErr result (λ fault. (fault ≡ Fault.Memory) × (pending.new.items ≡ [])) }
{
    let line = push_soaked(blocks, soaked, pending);
    end_line(line, pending)
}

/// Judges so many blocks of an entry by its rule of the catalogue, in the reading sent, and tells what came of them.
pub fn soak_entry(
    alloc: Global,
    entry: Entry,
    blocks: u32,
    pending: &mut Vec<u8>,
) -> Result<Ended, Fault>
    requires few { blocks ≤ MOST_BLOCKS }
    requires pending { pending.old.items ≡ [] }
    ensures ends { (words : List (List ℕ)) (files : Option (List ℕ → Option (List ℕ))) → IsSoak words entry blocks
        → (watchers : List Watched) (left taken : Option (List ℕ)) → JobEnds words files watchers left left taken taken pending.new.items result }
    ensures not_read { result ≢ Err Fault.Read }
    ensures not_write { result ≢ Err Fault.Write }
{
    let plan = match plan_of_entry(alloc, entry, Reading::Sent) {
        Ok(plan) => plan,
        Err(reason) => return refuse(Unplanned::Text(reason), pending),
    };
    let Ok(soaked) = soak(alloc, plan.plan(), entry, blocks) else {
        return Err(Fault::Memory);
    };
    tell_soaked(blocks, &soaked, pending)
}
