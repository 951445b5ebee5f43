//! Whether a certificate is good for a description.

ghost use Rattle.std.specs.Prelude.{◌≡◌, ◌≢◌, ◌⊎◌, ◌≤◌, ◌+◌, ◌++◌, ◌∷◌, [], List, ℕ, Err, IfOk, IfErr, Option, length};
ghost use Rattle.csn_certify.specs.declared.certifying.CertifyFault.{CertifyFault};
ghost use Rattle.csn_desc.specs.Nodes.{DescV};
ghost use Rattle.csn_grammar.specs.Place.{HasRules};
ghost use Rattle.csn_grammar.specs.RulesV.{RulesV};
ghost use Rattle.csn_resolve.specs.Resolved.{IsResolved};
ghost use Rattle.csn_io.specs.ShelfFault.{LacksFile};
ghost use Rattle.csn_replay.specs.Watched.{Watched};
ghost use Rattle.csn_plan.specs.declared.compiling.NoPlan.TheVariants.{Plan};
ghost use Rattle.csn_lines.specs.declared.lines.TheConstants.{LINE_FEED};
ghost use Rattle.csn_plan.specs.declared.compiling.TheConstants.{MOST_DESCRIPTION};
ghost use Rattle.csn_run.specs.declared.verifying.TheConstants.{MOST_CERTIFICATE};
ghost use Rattle.csn_command.specs.Command.{IsVerify};
ghost use Rattle.csn_run.specs.Told.{Verifies};
ghost use Rattle.csn_run.specs.Job.{ComesTo, FetchesInOrder, GivesDescription, JobEnds};
ghost use Rattle.csn_run.specs.Ran.{FileFails};
ghost use Rattle.csn_run.specs.Outside.{CannotRead, KeepsShelf, LeftByFetch};
ghost use Rattle.csn_run.specs.Planned.{HasDescription, IsChecked, IsWhy, TellsChecked};

use crate::laws::known;
use crate::planned::{Unplanned, description, end_line, refuse, whole_file};
use csn_bits::NoMemory;
use csn_cert::{CertFault, MOST_TEXT, read_certificate};
use csn_command::RuleWords;
use csn_desc::Desc;
use csn_good::{Checked, check_certificate};
use csn_io::Shelf;
use csn_lines::Fault;
use csn_plan::{Ended, described_text, push_numbers};
use std::alloc::{AllocError, Global};

/// The most bytes that the text of a certificate may have.
pub const MOST_CERTIFICATE: u32 = MOST_TEXT as u32;

/// The description of the rule that the words name, which need not be certified.
fn described<B: Shelf>(alloc: Global, shelf: &mut B, rule: RuleWords<'_>) -> Result<Desc, Unplanned>
    ensures desc { IfOk result (HasDescription (B.files shelf.old) rule.entry) }
    ensures none { IfErr result (IsWhy (B.files shelf.old) rule.entry) }
    ensures no_conflict { (fault : CertifyFault) → result ≢ Err (Unplanned.Text (Plan fault)) }
    ensures read { result ≡ Err (Unplanned.File Fault.Read)
        → CannotRead B.Shelf shelf.old shelf.new rule.entry.file.now }
    ensures missing { LacksFile (B.files shelf.old) rule.entry.file.now
        → (result ≡ Err (Unplanned.File Fault.Read)) ⊎ (result ≡ Err (Unplanned.File Fault.Memory)) }
    ensures fetched { LeftByFetch B.Shelf rule.entry.file.now MOST_DESCRIPTION shelf.old shelf.new }
    ensures given { IfOk result (λ desc. (text : List ℕ) × (rules : RulesV)
        × GivesDescription B.Shelf rule.entry.file.now text shelf.old shelf.new
        × HasRules text rules × IsResolved rules rule.entry.name.now rule.entry.reading desc) }
    ensures files { B.files shelf.new ≡ B.files shelf.old }
    ensures shelf { KeepsShelf B.Shelf shelf.old shelf.new (result ≡ Err (Unplanned.File Fault.Read)) }
{
    let text = description(alloc, shelf, rule.file)?;
    Ok(described_text(alloc, &text, rule.name.as_bytes(), rule.reading)?)
}

/// What the text of a certificate comes to.
fn checked(alloc: Global, desc: &Desc, text: &[u8]) -> Result<Checked, NoMemory>
    requires { length text.now ≤ MOST_CERTIFICATE }
    ensures { IfOk result (IsChecked desc.now text.now) }
{
    match read_certificate(alloc, text) {
        Ok(certificate) => check_certificate(alloc, desc, &certificate),
        Err(CertFault::Text) => Ok(Checked::Unproved { rule: 1, node: 0 }),
        Err(CertFault::NoMemory) => Err(NoMemory),
    }
}

/// Writes the line that tells what a certificate comes to, without a line feed.
fn push_checked(desc: &Desc, checked: Checked, out: &mut Vec<u8>) -> Result<Ended, AllocError>
    ensures ok { IfOk result (λ ended. (line : List ℕ) × (out.new.items ≡ out.old.items ++ line) × TellsChecked desc.now checked line ended) }
{
    match checked {
        Checked::Proved => {
            out.extend_from_slice(b"verified")?;
            push_numbers(&[u32::from(desc.len())], out)?;
            Ok(Ended::Done)
        }
        Checked::Unproved { rule, node } => {
            out.extend_from_slice(b"unproved")?;
            push_numbers(&[u32::from(rule), u32::from(node)], out)?;
            Ok(Ended::NotCertified)
        }
    }
}

/// Tells whether the text is that of a certificate which is good for the description.
fn verify_text(
    alloc: Global,
    desc: &Desc,
    text: &[u8],
    pending: &mut Vec<u8>,
) -> Result<Ended, Fault>
    requires fits { length text.now ≤ MOST_CERTIFICATE }
    requires pending { pending.old.items ≡ [] }
    ensures ok { IfOk result (λ ended. (line : List ℕ) × Verifies desc.now text.now line ended × (pending.new.items ≡ line ++ LINE_FEED ∷ [])) }
    ensures err { IfErr result (λ fault. (fault ≡ Fault.Memory) × (pending.new.items ≡ [])) }
{
    let Ok(checked) = checked(alloc, desc, text) else {
        return Err(Fault::Memory);
    };
    let line = push_checked(desc, checked, pending);
    end_line(line, pending)
}

/// Tells whether the certificate in a file is good for the rule of another one.
pub fn verify_file<B: Shelf>(
    alloc: Global,
    rule: RuleWords<'_>,
    certificate: &str,
    shelf: &mut B,
    pending: &mut Vec<u8>,
) -> Result<Ended, Fault>
    requires pending { pending.old.items ≡ [] }
    ensures ends { (words : List (List ℕ)) → IsVerify words rule.entry.file.now rule.entry.name.now rule.entry.reading certificate.now
        → (watchers : List Watched) (left taken : Option (List ℕ))
        → JobEnds words (B.files shelf.old) watchers left left taken taken pending.new.items result }
    ensures read { result ≡ Err Fault.Read → (words : List (List ℕ))
        → IsVerify words rule.entry.file.now rule.entry.name.now rule.entry.reading certificate.now
        → FileFails B.Shelf words shelf.old shelf.new }
    ensures not_write { result ≢ Err Fault.Write }
    ensures missing { (words : List (List ℕ)) (file : List ℕ) → IsVerify words rule.entry.file.now rule.entry.name.now rule.entry.reading certificate.now
        → ComesTo words (B.files shelf.old) file → LacksFile (B.files shelf.old) file
        → ((result ≡ Err Fault.Read) ⊎ (result ≡ Err Fault.Memory)) × (pending.new.items ≡ []) }
    ensures fetched { (words : List (List ℕ))
        → IsVerify words rule.entry.file.now rule.entry.name.now rule.entry.reading certificate.now
        → FetchesInOrder B.Shelf words shelf.old shelf.new }
    ensures shelf { KeepsShelf B.Shelf shelf.old shelf.new (result ≡ Err Fault.Read) }
{
    known();
    let desc = match described(alloc, shelf, rule) {
        Ok(desc) => desc,
        Err(why) => return refuse(why, pending),
    };
    match whole_file(alloc, shelf, certificate, MOST_CERTIFICATE) {
        Ok(text) => verify_text(alloc, &desc, &text, pending),
        Err(fault) => Err(fault),
    }
}
