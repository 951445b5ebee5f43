//! The plans of the rules of the catalogue.

ghost use Rattle.std.specs.Prelude.{◌≡◌, ◌≤◌, ◌++◌, ◌∷◌, [], List, IfOk, IfErr, OnOk, length, map};
ghost use Rattle.std.specs.List.{AllByRecursion};
ghost use Rattle.csn_catalogue.specs.declared.entry.Entry.{Entry};
ghost use Rattle.csn_catalogue.specs.Entries.{all_entries, entry_root};
ghost use Rattle.csn_catalogue.specs.Text.{catalogue_text};
ghost use Rattle.csn_grammar.specs.Place.{HasRules};
ghost use Rattle.csn_grammar.specs.RulesV.{RulesV};
ghost use Rattle.csn_plan.specs.declared.compiling.TheConstants.{MOST_DESCRIPTION};
ghost use Rattle.csn_plan.specs.Compiled.{AreCompiled, HasJob, IsCompiled, IsReason, rule_of_entry};

use crate::compiling::{NoPlan, compile, plan_by, rules_of};
use crate::text_plan::TextPlan;
use csn_bits::NoMemory;
use csn_catalogue::{Entry, entries, root_of};
use csn_certify::CertifyFault;
use csn_desc::Reading;
use csn_grammar::Rules;
use std::alloc::Global;

/// The plan of the rule of the catalogue that describes the blocks of an entry.
pub fn plan_of_entry(alloc: Global, entry: Entry, reading: Reading) -> Result<TextPlan, NoPlan>
    ensures plan { IfOk result (λ plan. (rules : RulesV) × IsCompiled catalogue_text (entry_root entry) reading rules plan) }
    ensures none { IfErr result (IsReason catalogue_text (entry_root entry) reading) }
    ensures fits { length catalogue_text ≤ MOST_DESCRIPTION }
{
    compile(alloc, csn_catalogue::text(), root_of(entry), reading)
}

/// Puts a plan behind those that there are.
fn keep_plan(plans: &mut Vec<TextPlan>, plan: TextPlan) -> Result<(), NoMemory>
    ensures { OnOk result (plans.new.items ≡ plans.old.items ++ plan ∷ []) }
{
    plans.push(plan)?;
    Ok(())
}

/// The plans of the rules that describe the blocks of the entries, in the order of the entries. Where there is none for one,
/// those before it have one.
fn plans_by(alloc: Global, rules: &Rules, reading: Reading) -> Result<Vec<TextPlan>, NoPlan>
    requires rules { HasRules catalogue_text rules.now }
    requires fits { length catalogue_text ≤ MOST_DESCRIPTION }
    ensures plans { IfOk result (λ plans. AreCompiled rules.now reading all_entries plans.items) }
    ensures none { IfErr result (λ reason. (front : List Entry) × (entry : Entry) × (behind : List Entry)
        × (all_entries ≡ front ++ entry ∷ behind) × AllByRecursion HasJob (map (rule_of_entry reading) front)
        × IsReason catalogue_text (entry_root entry) reading reason) }
{
    let mut plans = Vec::new(alloc);
    for entry in entries() {
        let plan = match plan_by(alloc, rules, root_of(entry), reading) {
            Ok(plan) => plan,
            Err(reason) => return Err(reason),
        };
        let Ok(()) = keep_plan(&mut plans, plan) else {
            return Err(NoPlan::Plan(CertifyFault::NoMemory));
        };
    }
    Ok(plans)
}

/// The plans of the rules of the catalogue that describe the blocks of the entries, in the order of the entries.
pub fn plans_of_entries(alloc: Global, reading: Reading) -> Result<Vec<TextPlan>, NoPlan>
    ensures plans { IfOk result (λ plans. (rules : RulesV) × AreCompiled rules reading all_entries plans.items) }
    ensures count { IfOk result (λ plans. length plans.items ≡ 7) }
    ensures none { IfErr result (λ reason. (front : List Entry) × (entry : Entry) × (behind : List Entry)
        × (all_entries ≡ front ++ entry ∷ behind) × AllByRecursion HasJob (map (rule_of_entry reading) front)
        × IsReason catalogue_text (entry_root entry) reading reason) }
    ensures fits { length catalogue_text ≤ MOST_DESCRIPTION }
{
    match rules_of(alloc, csn_catalogue::text()) {
        Ok(rules) => plans_by(alloc, &rules, reading),
        Err(reason) => Err(reason),
    }
}
