ghost use Rattle.std.specs.Prelude.{◌≡◌, length, IfOk};
ghost use Rattle.csn_resolve.specs.Resolved.{IsResolved};
ghost use Rattle.csn_places.specs.Places.{ArePlaces, AreOrigins};

use crate::origin::{Origin, PutIn};
use crate::walk::Walker;
use csn_bits::NoMemory;
use csn_desc::Desc;
use csn_grammar::Rules;
use csn_resolve::{Marks, Names, Test};
use std::alloc::Global;

/// The most names that are put in inside one another.
const MOST_NAMES: u8 = 64;

/// Where the nodes of a description come from that a named rule gives, in their order, whether it is certified
/// or not.
pub fn origins(
    alloc: Global,
    rules: &Rules,
    name: &[u8],
    desc: &Desc,
) -> Result<Vec<Origin>, NoMemory>
    requires resolved { IsResolved rules.now name.now desc.now.reading desc.now }
    ensures many { IfOk result (λ origins. length origins.items ≡ length desc.now.nodes) }
    ensures places { IfOk result (λ origins. ArePlaces rules.now name.now desc.now origins.items) }
    ensures names { IfOk result (λ origins. AreOrigins rules.now name.now desc.now origins.items) }
{
    let Ok(names) = Names::list(alloc, rules) else {
        return Err(NoMemory);
    };
    origins_by(alloc, &names, name, desc)
}

/// The same, where the rules are listed by name.
fn origins_by(
    alloc: Global,
    names: &Names<'_>,
    name: &[u8],
    desc: &Desc,
) -> Result<Vec<Origin>, NoMemory>
    requires resolved { IsResolved names.now name.now desc.now.reading desc.now }
    ensures { IfOk result (λ origins. AreOrigins names.now name.now desc.now origins.items) }
{
    let Some(number) = names.number(name) else {
        unreachable!()
    };
    let reading = desc.reading();
    let void = Marks::new(alloc, names, Test::Void(reading))?;
    let walker = Walker {
        alloc,
        names,
        reading,
        void: &void,
    };
    let rule = names.rule(number);
    let round = PutIn::new(alloc);
    let mut found = Vec::new(alloc);
    csn_resolve::laws::walks_end();
    walker.walk_rule(MOST_NAMES, &round, rule, &mut found)?;
    Ok(found)
}
