ghost use Rattle.std.specs.Prelude.{◌≡◌, ℕ, [], Err, IfOk};
ghost use Rattle.csn_grammar.specs.Names.{built_in_names};
ghost use Rattle.csn_resolve.specs.declared.why.Why.{Why as WhyV};
ghost use Rattle.csn_resolve.specs.Saying.{SaysTheSame};
ghost use Rattle.csn_grammar.specs.Shaped.{AreShaped};
ghost use Rattle.csn_resolve.specs.Resolved.{IsResolved, IsRefused, twice_steps};

use crate::build::Builder;
use crate::fault::ResolveFault;
use crate::first::first_refusal;
use crate::made::Made;
use crate::marks::{Marks, Test};
use crate::names::Names;
use crate::shown::{Round, Shown};
use csn_desc::{Desc, Reading};
use csn_grammar::Rules;
use std::alloc::Global;

/// The description that a named rule gives in one reading, or why and where the rules are refused.
pub fn resolve(
    alloc: Global,
    rules: &Rules,
    name: &[u8],
    reading: Reading,
) -> Result<Desc, ResolveFault>
    ensures resolved { IfOk result (λ desc. IsResolved rules.now name.now reading desc) }
    ensures says { IfOk result (λ desc. SaysTheSame rules.now name.now reading desc) }
    ensures refused { (why : WhyV) (place : ℕ) → result ≡ Err (ResolveFault.Refused why place) → IsRefused rules.now name.now reading why place }
{
    let names = Names::list(alloc, rules)?;
    resolve_name(alloc, &names, name, reading)
}

/// The same, where the rules are listed by name.
fn resolve_name(
    alloc: Global,
    names: &Names<'_>,
    name: &[u8],
    reading: Reading,
) -> Result<Desc, ResolveFault>
    requires once { twice_steps built_in_names names.now ≡ [] }
    requires shaped { AreShaped names.now }
    ensures resolved { IfOk result (λ desc. IsResolved names.now name.now reading desc) }
    ensures refused { (why : WhyV) (place : ℕ) → result ≡ Err (ResolveFault.Refused why place) → IsRefused names.now name.now reading why place }
{
    let void = Marks::new(alloc, names, Test::Void(reading))?;
    let number = first_refusal(alloc, names, &void, name, reading)?;
    let builder = Builder {
        alloc,
        names,
        reading,
        void: &void,
    };
    let mut made = Made::new(alloc);
    let round = Round {
        names: 0,
        shown: &Shown::Nothing,
    };
    builder.build_rule(round, names.rule(number), &mut made)?;
    made.describe(alloc, reading)
}
