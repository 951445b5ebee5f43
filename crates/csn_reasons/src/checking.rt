//! What is told of a rule that is checked.

ghost use Rattle.std.specs.Prelude.{◌≡◌, ◌≤◌, ◌++◌, [], ◌∷◌, List, ℕ, IfOk, length};
ghost use Rattle.csn_plan.specs.declared.compiling.TheConstants.{MOST_DESCRIPTION};
ghost use Rattle.csn_plan.specs.Compiled.{Tells, certified_line};
ghost use Rattle.csn_reasons.specs.Answers.{IsAnswer};

use crate::asked::Asked;
use crate::conflicts::tell_conflict;
use crate::described::describe;
use crate::refusals::tell_refusal;
use crate::syntax::tell_syntax;
use crate::telling::Told;
use csn_bits::NoMemory;
use csn_certify::{CertifyFault, Conflict, Plan};
use csn_grammar::GrammarFault;
use csn_plan::{Ended, NoPlan, plan_text, push_certified, push_reason};
use csn_resolve::ResolveFault;
use std::alloc::Global;

/// Writes what `csn_cli check` answers of the rule, and then, where it has no plan, the reason in words. Lines
/// and columns count from 1, and a column counts the octets of its line.
pub fn check(alloc: Global, asked: Asked<'_>, out: &mut Vec<u8>) -> Result<Ended, NoMemory>
    requires fits { length asked.text.now ≤ MOST_DESCRIPTION }
    ensures answer { IfOk result (λ ended. (line words : List ℕ)
        × (out.new.items ≡ out.old.items ++ line ++ 10 ∷ words)
        × IsAnswer asked.entry.text.now asked.entry.name.now asked.entry.reading line ended) }
{
    match plan_text(alloc, asked.text, asked.name, asked.reading) {
        Ok(plan) => tell_certified(&plan, out),
        Err(reason) => {
            let words = reason_words(alloc, asked, &reason)?;
            tell_reason(&reason, words.as_slice(), out)
        }
    }
}

/// Writes the line of a certified description.
fn tell_certified(plan: &Plan, out: &mut Vec<u8>) -> Result<Ended, NoMemory>
    ensures { IfOk result (λ ended. (ended ≡ Ended.Done) × (out.new.items ≡ out.old.items ++ certified_line plan.now ++ 10 ∷ [])) }
{
    let ended = push_certified(plan, out)?;
    out.push(b'\n')?;
    Ok(ended)
}

/// Writes the line of a reason, and words behind it.
pub(crate) fn tell_reason(
    reason: &NoPlan,
    words: &[u8],
    out: &mut Vec<u8>,
) -> Result<Ended, NoMemory>
    ensures { IfOk result (λ ended. (line : List ℕ) × (out.new.items ≡ out.old.items ++ line ++ 10 ∷ words.now)
        × Tells reason.now line ended) }
{
    let ended = push_reason(reason, out)?;
    out.push(b'\n')?;
    out.extend_from_slice(words)?;
    Ok(ended)
}

/// The words for a reason.
fn reason_words(alloc: Global, asked: Asked<'_>, reason: &NoPlan) -> Result<Vec<u8>, NoMemory>
    requires fits { length asked.text.now ≤ MOST_DESCRIPTION }
{
    let mut words = Vec::new(alloc);
    push_words(alloc, asked, reason, &mut words)?;
    Ok(words)
}

/// Writes the words for a reason.
fn push_words(alloc: Global, asked: Asked<'_>, reason: &NoPlan, words: &mut Vec<u8>) -> Told
    requires fits { length asked.text.now ≤ MOST_DESCRIPTION }
{
    match reason {
        NoPlan::Rules(GrammarFault::Syntax { place }) => tell_syntax(alloc, words, asked, *place),
        NoPlan::Description(ResolveFault::Refused { why, place }) => {
            tell_refusal(alloc, words, asked, *why, *place)
        }
        NoPlan::Plan(CertifyFault::Conflict(conflict)) => {
            push_conflict(alloc, asked, conflict, words)
        }
        NoPlan::Rules(GrammarFault::NoMemory) => Err(NoMemory),
        NoPlan::Description(ResolveFault::NoMemory) => Err(NoMemory),
        NoPlan::Plan(CertifyFault::NoMemory) => Err(NoMemory),
    }
}

/// Writes the words for a conflict: the description is made once more, to see where its nodes stand.
fn push_conflict(alloc: Global, asked: Asked<'_>, conflict: &Conflict, words: &mut Vec<u8>) -> Told
    requires fits { length asked.text.now ≤ MOST_DESCRIPTION }
{
    let Ok(found) = describe(alloc, asked) else {
        return Err(NoMemory);
    };
    tell_conflict(alloc, words, asked, &found.desc, &found.origins, conflict)
}
