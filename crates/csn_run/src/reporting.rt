//! What is told of the certified description of a rule.

ghost use Rattle.std.specs.Prelude.{◌≡◌, ◌++◌, ◌∷◌, [], IfOk, IfErr};
ghost use Rattle.csn_certmake.specs.Claimed.{IsCertificateText};
ghost use Rattle.csn_lines.specs.declared.lines.TheConstants.{LINE_FEED};
ghost use Rattle.csn_plan.specs.Compiled.{certified_line};
ghost use Rattle.csn_run.specs.Result.{Reports};

use crate::planned::end_line;
use csn_bits::NoMemory;
use csn_cert::write_certificate;
use csn_certify::Plan;
use csn_certmake::make_certificate;
use csn_command::RuleReport;
use csn_lines::Fault;
use csn_plan::{Ended, push_certified};
use std::alloc::Global;

/// Writes the line that tells of a certified description.
fn tell_certified(plan: Plan, pending: &mut Vec<u8>) -> Result<Ended, Fault>
    requires { pending.old.items ≡ [] }
    ensures ok { IfOk result (λ ended. (ended ≡ Ended.Done) × (pending.new.items ≡ certified_line plan ++ LINE_FEED ∷ [])) }
    ensures err { IfErr result (λ fault. (fault ≡ Fault.Memory) × (pending.new.items ≡ [])) }
{
    let line = push_certified(&plan, pending);
    end_line(line, pending)
}

/// The text of the certificate of a certified description.
fn certificate_text(alloc: Global, plan: Plan) -> Result<Vec<u8>, NoMemory>
    ensures { IfOk result (λ text. IsCertificateText plan text.items) }
{
    let certificate = make_certificate(alloc, plan)?;
    write_certificate(alloc, &certificate)
}

/// Writes the certificate of a certified description.
fn tell_certificate(alloc: Global, plan: Plan, pending: &mut Vec<u8>) -> Result<Ended, Fault>
    requires { pending.old.items ≡ [] }
    ensures ok { IfOk result (λ ended. (ended ≡ Ended.Done) × IsCertificateText plan pending.new.items) }
    ensures err { IfErr result (λ fault. (fault ≡ Fault.Memory) × (pending.new.items ≡ [])) }
{
    let Ok(text) = certificate_text(alloc, plan) else {
        return Err(Fault::Memory);
    };
    *pending = text;
    Ok(Ended::Done)
}

/// Writes what a report tells of a certified description.
pub fn report_plan(
    alloc: Global,
    report: RuleReport,
    plan: Plan,
    pending: &mut Vec<u8>,
) -> Result<Ended, Fault>
    requires { pending.old.items ≡ [] }
    ensures ok { IfOk result (λ ended. (ended ≡ Ended.Done) × Reports report plan pending.new.items) }
    ensures err { IfErr result (λ fault. (fault ≡ Fault.Memory) × (pending.new.items ≡ [])) }
{
    match report {
        RuleReport::Check => tell_certified(plan, pending),
        RuleReport::Certificate => tell_certificate(alloc, plan, pending),
    }
}
