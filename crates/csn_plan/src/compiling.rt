//! From the text of a description to the plan of a rule, or to the line that says why there is none.

ghost use Rattle.std.specs.Prelude.{◌≡◌, ◌≢◌, ◌≤◌, ◌++◌, ◌∷◌, List, ℕ, Err, IfOk, IfErr, OnOk, length};
ghost use Rattle.csn_desc.specs.declared.reading.Reading.{Reading};
ghost use Rattle.csn_grammar.specs.Place.{HasRules};
ghost use Rattle.csn_grammar.specs.RulesV.{RulesV};
ghost use Rattle.csn_resolve.specs.Resolved.{IsResolved};
ghost use Rattle.csn_plan.specs.Compiled.{IsCompiled, IsReason, Tells, certified_line, conflict_line, digits_of};

use crate::ended::Ended;
use crate::numbers::push_numbers;
use crate::text_plan::TextPlan;
use csn_certify::{CertifyFault, Conflict, Plan, certify};
use csn_desc::{Desc, Reading};
use csn_grammar::{GrammarFault, Rules, read_rules};
use csn_lexer::MOST_TEXT;
use csn_look::Word;
use csn_resolve::{ResolveFault, resolve};
use std::alloc::{AllocError, Global};

/// The most bytes that a description may have.
pub const MOST_DESCRIPTION: u32 = MOST_TEXT;

/// Why a rule of a text has no plan.
#[derive(Drop)]
pub enum NoPlan {
    /// The text has no rules.
    Rules(GrammarFault),
    /// The rules are refused.
    Description(ResolveFault),
    /// The description has a conflict.
    Plan(CertifyFault),
}

/// What is made of a text, or why its rule has no plan.
pub type Compiled<T> = Result<T, NoPlan>;

/// The rules of a text.
pub fn rules_of(alloc: Global, text: &[u8]) -> Compiled<Rules>
    requires fits { length text.now ≤ MOST_DESCRIPTION }
    ensures rules { IfOk result (HasRules text.now) }
    ensures none { IfErr result (λ reason. (name : List ℕ) (reading : Reading) → IsReason text.now name reading reason) }
    ensures no_conflict { (fault : CertifyFault) → result ≢ Err (NoPlan.Plan fault) }
{
    match read_rules(alloc, text) {
        Ok(rules) => Ok(rules),
        Err(fault) => Err(NoPlan::Rules(fault)),
    }
}

/// The certified description of a named rule among these.
fn certified(alloc: Global, rules: &Rules, name: &[u8], reading: Reading) -> Compiled<Plan>
    ensures plan { IfOk result (λ plan. (text : List ℕ) → HasRules text rules.now → IsCompiled text name.now reading rules.now plan) }
    ensures none { IfErr result (λ reason. (text : List ℕ) → HasRules text rules.now → IsReason text name.now reading reason) }
{
    let desc = match resolve(alloc, rules, name, reading) {
        Ok(desc) => desc,
        Err(fault) => return Err(NoPlan::Description(fault)),
    };
    match certify(alloc, desc) {
        Ok(plan) => Ok(plan),
        Err(fault) => Err(NoPlan::Plan(fault)),
    }
}

/// The plan of a named rule among these, with the openings of its nodes.
pub fn plan_by(alloc: Global, rules: &Rules, name: &[u8], reading: Reading) -> Compiled<TextPlan>
    ensures plan { IfOk result (λ plan. (text : List ℕ) → HasRules text rules.now → IsCompiled text name.now reading rules.now plan) }
    ensures none { IfErr result (λ reason. (text : List ℕ) → HasRules text rules.now → IsReason text name.now reading reason) }
{
    let plan = certified(alloc, rules, name, reading)?;
    match TextPlan::new(alloc, plan) {
        Ok(made) => Ok(made),
        Err(_) => Err(NoPlan::Plan(CertifyFault::NoMemory)),
    }
}

/// The plan of a named rule of a text, with the openings of its nodes.
pub fn compile(alloc: Global, text: &[u8], name: &[u8], reading: Reading) -> Compiled<TextPlan>
    requires fits { length text.now ≤ MOST_DESCRIPTION }
    ensures plan { IfOk result (λ plan. (rules : RulesV) × IsCompiled text.now name.now reading rules plan) }
    ensures none { IfErr result (IsReason text.now name.now reading) }
{
    let rules = rules_of(alloc, text)?;
    plan_by(alloc, &rules, name, reading)
}

/// The plan of a named rule of a text alone, for who shows no blocks.
pub fn plan_text(alloc: Global, text: &[u8], name: &[u8], reading: Reading) -> Compiled<Plan>
    requires fits { length text.now ≤ MOST_DESCRIPTION }
    ensures plan { IfOk result (λ plan. (rules : RulesV) × IsCompiled text.now name.now reading rules plan) }
    ensures none { IfErr result (IsReason text.now name.now reading) }
{
    let rules = rules_of(alloc, text)?;
    certified(alloc, &rules, name, reading)
}

/// The description of a named rule of a text, which need not be certified.
pub fn described_text(alloc: Global, text: &[u8], name: &[u8], reading: Reading) -> Compiled<Desc>
    requires fits { length text.now ≤ MOST_DESCRIPTION }
    ensures desc { IfOk result (λ desc. (rules : RulesV) × HasRules text.now rules × IsResolved rules name.now reading desc) }
    ensures none { IfErr result (IsReason text.now name.now reading) }
    ensures no_conflict { (fault : CertifyFault) → result ≢ Err (NoPlan.Plan fault) }
{
    let rules = rules_of(alloc, text)?;
    match resolve(alloc, &rules, name, reading) {
        Ok(desc) => Ok(desc),
        Err(fault) => Err(NoPlan::Description(fault)),
    }
}

/// The certified description of a named rule of a text.
pub fn certified_text(alloc: Global, text: &[u8], name: &[u8], reading: Reading) -> Compiled<Desc>
    requires fits { length text.now ≤ MOST_DESCRIPTION }
    ensures desc { IfOk result (λ desc. (rules : RulesV) × IsCompiled text.now name.now reading rules desc) }
    ensures reading { IfOk result (λ desc. desc.reading ≡ reading) }
    ensures none { IfErr result (IsReason text.now name.now reading) }
{
    let rules = rules_of(alloc, text)?;
    let plan = certified(alloc, &rules, name, reading)?;
    Ok(plan.into_desc())
}

/// Writes a space, and the bits of a word as digits.
fn push_word(word: &Word, out: &mut Vec<u8>) -> Result<(), AllocError>
    ensures ok { OnOk result (out.new.items ≡ out.old.items ++ 32 ∷ digits_of word.now) }
{
    out.push(b' ')?;
    for at in 0..word.len() {
        out.push(b'0' + word.get(at))?;
    }
    Ok(())
}

/// Writes the line that tells a conflict.
fn push_conflict(conflict: &Conflict, out: &mut Vec<u8>) -> Result<(), AllocError>
    ensures ok { OnOk result (out.new.items ≡ out.old.items ++ conflict_line conflict.now) }
{
    out.extend_from_slice(b"conflict")?;
    match conflict {
        Conflict::TwoEmpty { node, i, j } => push_numbers(
            &[1, *node as u32, *i as u32, *j as u32],
            out,
        ),
        Conflict::NotFirm { node, i } => push_numbers(&[2, *node as u32, *i as u32], out),
        Conflict::Overlap {
            node,
            octet,
            i,
            j,
            word_i,
            word_j,
        } => {
            push_numbers(&[3, *node as u32, *octet as u32, *i as u32, *j as u32], out)?;
            push_word(word_i, out)?;
            push_word(word_j, out)
        }
        Conflict::EmptyClash { node, octet, bit } => {
            push_numbers(&[4, *node as u32, *octet as u32, *bit as u32], out)
        }
        Conflict::LoopClash { node, octet, bit } => {
            push_numbers(&[5, *node as u32, *octet as u32, *bit as u32], out)
        }
        Conflict::NotLast { node, octet } => push_numbers(&[6, *node as u32, *octet as u32], out),
    }
}

/// Writes the line that tells a reason, without a line feed, and tells the end of the run.
pub fn push_reason(reason: &NoPlan, out: &mut Vec<u8>) -> Result<Ended, AllocError>
    ensures ok { IfOk result (λ ended. (line : List ℕ) × (out.new.items ≡ out.old.items ++ line) × Tells reason.now line ended) }
{
    match reason {
        NoPlan::Rules(GrammarFault::Syntax { place }) => {
            out.extend_from_slice(b"syntax")?;
            push_numbers(&[*place], out)?;
            Ok(Ended::BadDescription)
        }
        NoPlan::Description(ResolveFault::Refused { why, place }) => {
            out.extend_from_slice(b"description")?;
            push_numbers(&[why.number() as u32, *place], out)?;
            Ok(Ended::BadDescription)
        }
        NoPlan::Plan(CertifyFault::Conflict(conflict)) => {
            push_conflict(conflict, out)?;
            Ok(Ended::NotCertified)
        }
        NoPlan::Rules(GrammarFault::NoMemory) => Err(AllocError),
        NoPlan::Description(ResolveFault::NoMemory) => Err(AllocError),
        NoPlan::Plan(CertifyFault::NoMemory) => Err(AllocError),
    }
}

/// Writes the line that tells how many nodes a certified description has, without a line feed.
pub fn push_certified(plan: &Plan, out: &mut Vec<u8>) -> Result<Ended, AllocError>
    ensures ok { IfOk result (λ ended. (ended ≡ Ended.Done) × (out.new.items ≡ out.old.items ++ certified_line plan.now)) }
{
    out.extend_from_slice(b"certified")?;
    push_numbers(&[plan.len() as u32], out)?;
    Ok(Ended::Done)
}
