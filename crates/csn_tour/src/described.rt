//! From a text to a plan, and what else can be asked of a description.

ghost use Rattle.std.specs.Prelude.{◌≡◌, IfOk, IsTrue, List, ℕ};
ghost use Rattle.csn_certify.specs.Conflicts.{Certified};
ghost use Rattle.csn_certify.specs.Plans.{HasOneTree};
ghost use Rattle.csn_compat.specs.Laws.{TakesStrings};
ghost use Rattle.csn_desc.specs.Nodes.{DescV};
ghost use Rattle.csn_tour.specs.Describes.{Describes};

use crate::fault::TourFault;
use csn_cert::{read_certificate, write_certificate};
use csn_certify::{Plan, certify};
use csn_certmake::make_certificate;
use csn_compat::compat;
use csn_desc::{Desc, Reading};
use csn_good::{Checked, check_certificate};
use csn_grammar::read_rules;
use csn_resolve::resolve;
use std::alloc::Global;

/// The description of the rule `M` of a text: csn_grammar reads the rules, csn_resolve numbers the nodes.
pub fn description(alloc: Global, text: &str, reading: Reading) -> Result<Desc, TourFault>
    ensures { IfOk result (λ desc. Describes reading text.now desc) }
{
    if text.len() > csn_lexer::MOST_TEXT as usize {
        return Err(TourFault::TooLong);
    }
    let rules = read_rules(alloc, text.as_bytes())?;
    Ok(resolve(alloc, &rules, b"M", reading)?)
}

/// Its plan: csn_certify looks for conflicts, and where there is none, no bits have two trees.
pub fn plan(alloc: Global, text: &str) -> Result<Plan, TourFault>
    ensures certified { IfOk result (λ plan. Describes Reading.Received text.now plan × Certified plan 12) }
    ensures one_tree { IfOk result (λ plan. HasOneTree plan) }
{
    let desc = description(alloc, text, Reading::Received)?;
    match certify(alloc, desc) {
        Ok(plan) => Ok(plan),
        Err(_conflict) => Err(TourFault::Conflict),
    }
}

/// Whether every block of an old description has a tree by a new one, as csn_compat sees it.
pub fn takes_old_blocks(alloc: Global, old: &str, new: &str) -> Result<bool, TourFault>
    ensures { IfOk result (λ taken. IsTrue taken → (was : DescV) × (now : DescV)
        × Describes Reading.Received old.now was × Describes Reading.Received new.now now × TakesStrings was now) }
{
    let old = description(alloc, old, Reading::Received)?;
    let new = description(alloc, new, Reading::Received)?;
    if old.reading() == new.reading() {
        Ok(compat(&old, &new))
    } else {
        Ok(false)
    }
}

/// Whether the certificate that csn_certmake makes of a plan, written and read again by csn_cert, is good for the
/// description, as csn_good sees it, which knows nothing of how it was certified.
pub fn is_verified(alloc: Global, text: &str) -> Result<bool, TourFault>
    ensures { IfOk result (λ good. IsTrue good → (d : DescV) × Describes Reading.Received text.now d × HasOneTree d) }
{
    let desc = description(alloc, text, Reading::Received)?;
    let made = make_certificate(alloc, plan(alloc, text)?)?;
    let file = write_certificate(alloc, &made)?;
    if file.len() > csn_cert::MOST_TEXT as usize {
        return Err(TourFault::TooLong);
    }
    let certificate = read_certificate(alloc, file.as_slice())?;
    Ok(check_certificate(alloc, &desc, &certificate)? == Checked::Proved)
}
