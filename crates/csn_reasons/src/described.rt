ghost use Rattle.std.specs.Prelude.{◌≡◌, ◌≢◌, ◌≤◌, Err, IfOk, IfErr, length};
ghost use Rattle.csn_certify.specs.declared.certifying.CertifyFault.{CertifyFault};
ghost use Rattle.csn_plan.specs.declared.compiling.TheConstants.{MOST_DESCRIPTION};
ghost use Rattle.csn_plan.specs.Compiled.{IsReason};
ghost use Rattle.csn_reasons.specs.Facts.{IsDescribed};

use crate::asked::Asked;
use csn_desc::Desc;
use csn_grammar::read_rules;
use csn_places::{Origin, origins};
use csn_plan::{Compiled, NoPlan};
use csn_resolve::{ResolveFault, resolve};
use std::alloc::Global;

/// The description of a rule, certified or not, and where its nodes come from, in their order.
#[derive(Drop)]
pub(crate) struct Described {
    pub desc: Desc,
    pub origins: Vec<Origin>,
}

/// The description of the rule that is asked about, or why it has none.
pub(crate) fn describe(alloc: Global, asked: Asked<'_>) -> Compiled<Described>
    requires fits { length asked.text.now ≤ MOST_DESCRIPTION }
    ensures nodes { IfOk result (λ found. IsDescribed asked.entry.text.now asked.entry.name.now asked.entry.reading found.desc found.origins.items) }
    ensures none { IfErr result (IsReason asked.entry.text.now asked.entry.name.now asked.entry.reading) }
    ensures no_conflict { (fault : CertifyFault) → result ≢ Err (NoPlan.Plan fault) }
{
    let rules = match read_rules(alloc, asked.text) {
        Ok(rules) => rules,
        Err(fault) => return Err(NoPlan::Rules(fault)),
    };
    let desc = match resolve(alloc, &rules, asked.name, asked.reading) {
        Ok(desc) => desc,
        Err(fault) => return Err(NoPlan::Description(fault)),
    };
    match origins(alloc, &rules, asked.name, &desc) {
        Ok(origins) => Ok(Described { desc, origins }),
        Err(_) => Err(NoPlan::Description(ResolveFault::NoMemory)),
    }
}
