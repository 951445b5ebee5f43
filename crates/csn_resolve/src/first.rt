ghost use Rattle.std.specs.Prelude.{◌≡◌, ◌<◌, [], length, slice_get, IfOk, IfErr};
ghost use Rattle.csn_grammar.specs.Names.{built_in_names, rule_of};
ghost use Rattle.csn_resolve.specs.declared.marks.Test.TheVariants.{Void};
ghost use Rattle.csn_resolve.specs.Resolved.{AreRefusals, twice_steps};
ghost use Rattle.csn_resolve.specs.Going.{IsFirst};

use crate::around::{Entered, Seen};
use crate::begun::{Around, Begun};
use crate::fault::ResolveFault;
use crate::marks::{Marks, Test};
use crate::names::Names;
use crate::steps::refusal;
use crate::walker::Walker;
use crate::why::Why;
use csn_desc::Reading;
use std::alloc::Global;

/// Walks through the rule of a name, up to its first refusal. The rules are listed by name, and those that
/// are empty of strings in the reading are marked.
pub(crate) fn first_refusal(
    alloc: Global,
    names: &Names<'_>,
    void: &Marks<'_>,
    name: &[u8],
    reading: Reading,
) -> Result<u32, ResolveFault>
    requires once { twice_steps built_in_names names.now ≡ [] }
    requires void { void.now ≡ record { rules = names.now; test = Void reading } }
    ensures accepted { IfOk result (λ at. AreRefusals names.now name.now reading []) }
    ensures rule { IfOk result (λ at. rule_of names.now name.now ≡ slice_get names.now at) }
    ensures within { IfOk result (λ at. at < length names.now) }
    ensures refused { IfErr result (λ fault. IsFirst names.now name.now reading fault) }
{
    let Some(number) = names.number(name) else {
        return Err(refusal(Why::Undefined, 0));
    };
    let void_sent = Marks::new(alloc, names, Test::Void(Reading::Sent))?;
    let narrow = Marks::new(alloc, names, Test::Narrow(reading))?;
    let walker = Walker {
        names,
        reading,
        void,
        void_sent: &void_sent,
        narrow: &narrow,
    };
    let entered = Entered::Rule(name, &Entered::Nothing);
    let around = Around {
        depth: 0,
        names: &entered,
        seen: &Seen::Nothing,
    };
    let rule = names.rule(number);
    walker.walk_rule(around, rule, Begun { nodes: 0 })?;
    walker.leave_part(&rule.body)?;
    Ok(number)
}
