//! Why there is no rule, and why a tree has no block.

ghost use Rattle.std.specs.Prelude.{List, ℕ};
ghost use Rattle.csn_desc.specs.declared.reading.Reading.{Reading};
ghost use Rattle.csn_plan.specs.Compiled.{IsReason};
ghost use Rattle.csn_rule.specs.Refusals.{IsNoRule};

use csn_certify::{CertifyFault, Conflict};
use csn_encode::Misfit;
use csn_grammar::GrammarFault;
use csn_plan::NoPlan;
use csn_resolve::{ResolveFault, Why};

/// Why a rule of a text is not compiled. Places are byte offsets into the text, from 0.
#[derive(Drop)]
pub enum NoRule {
    /// The text has more bytes than [`MOST_DESCRIPTION`](csn_plan::MOST_DESCRIPTION).
    TooLong,
    /// The text has no rules.
    Syntax { place: u32 },
    /// The rules are refused.
    Description { why: Why, place: u32 },
    /// The description has a conflict.
    Conflict(Conflict),
    /// There was no memory.
    NoMemory,
}

impl NoRule {
    /// The reason for which there is no plan.
    pub(crate) fn of(reason: NoPlan) -> NoRule
        ensures { (text name : List ℕ) (reading : Reading) → IsReason text name reading reason → IsNoRule text name reading result }
    {
        match reason {
            NoPlan::Rules(GrammarFault::Syntax { place }) => NoRule::Syntax { place },
            NoPlan::Description(fault) => NoRule::of_rules(fault),
            NoPlan::Plan(CertifyFault::Conflict(conflict)) => NoRule::Conflict(conflict),
            NoPlan::Rules(GrammarFault::NoMemory) => NoRule::NoMemory,
            NoPlan::Plan(CertifyFault::NoMemory) => NoRule::NoMemory,
        }
    }

    /// The reason for which the rules give no description.
    fn of_rules(fault: ResolveFault) -> NoRule
        ensures { (text name : List ℕ) (reading : Reading)
            → IsReason text name reading (NoPlan.Description fault) → IsNoRule text name reading result }
    {
        match fault {
            ResolveFault::Refused { why, place } => NoRule::Description { why, place },
            ResolveFault::NoMemory => NoRule::NoMemory,
        }
    }
}

/// Why bytes give no block.
#[derive(Drop)]
pub enum NoBlock {
    /// They are the text of no tree, and the first `place` of them begin one.
    NotText { place: u32 },
    /// They are no JSON.
    NotJson,
    /// They are a JSON value that shows no tree.
    NotTree,
    /// No block has the tree: where it first misses the description, and why.
    Misfit(Misfit),
    /// There was no memory.
    NoMemory,
}
