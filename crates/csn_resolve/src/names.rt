ghost use Rattle.std.specs.Prelude.{◌≡◌, ◌<◌, length, slice_get, Some, None, IfOk, IfSome, MatchOption, MatchResult};
ghost use Rattle.csn_grammar.specs.Names.{built_in_names, is_built_in, rule_of};
ghost use Rattle.csn_grammar.specs.Shaped.{AreShaped};
ghost use Rattle.csn_resolve.specs.Resolved.{twice_steps};
ghost use Rattle.csn_resolve.specs.Going.{Way, way, gone, Stops};
ghost use Rattle.csn_resolve.specs.Numbers.{number_in};

use crate::fault::ResolveFault;
use crate::why::Why;
use csn_bits::NoMemory;
use csn_grammar::{BuiltIn, Rule, Rules};
use indexmap::IndexSet;
use std::alloc::Global;
use std::marker::Model;

/// Whether every description has the name already.
pub(crate) fn is_built_in(name: &[u8]) -> bool
    ensures { result ≡ is_built_in name.now }
{
    BuiltIn::of(name).is_some()
}

/// The rules of a description by their names, of which no two are the same and none is built in. A
/// contract sees the rules.
#[derive(Drop)]
pub struct Names<'a> {
    rules: &'a Rules,
    numbers: IndexSet<&'a [u8]>,
}

impl<'a> Model for Names<'a> {
    ghost use Rattle.csn_grammar.specs.RulesV.{RulesV, rules_code};
    ghost use Rattle.csn_resolve.specs.Numbers.{AreNames};

    ghost Value = { RulesV };

    ghost coded = { rules_code };

    ghost view = { λ n. n.rules.now };

    ghost invariant = { λ n. AreNames n.numbers.keys n.rules.now };
}

impl<'a> Names<'a> {
    /// The names of rules. The first rule that has the name of an earlier one, or one that is built in, is
    /// refused, and nothing else is.
    pub fn list(alloc: Global, rules: &'a Rules) -> Result<Names<'a>, ResolveFault>
        ensures names { IfOk result (λ names. names ≡ rules.now) }
        ensures shaped { AreShaped rules.now }
        ensures twice { MatchResult result
            (λ names. way 0 (twice_steps built_in_names rules.now) ≡ gone 0)
            (λ fault. Stops (way 0 (twice_steps built_in_names rules.now)) fault) }
    {
        let mut numbers = IndexSet::new(alloc);
        for at in 0..rules.len() {
            let rule = rules.get(at);
            let name = rule.name.bytes();
            if is_built_in(name) || !numbers.insert(name).map_err(|_| NoMemory)? {
                return Err(ResolveFault::Refused {
                    why: Why::DefinedTwice,
                    place: rule.span.start,
                });
            }
        }
        Ok(Names { rules, numbers })
    }

    /// How many rules there are.
    pub fn len(&self) -> u32
        ensures { result ≡ length self.now }
    {
        self.rules.len()
    }

    /// The number of the rule that a name means, from 0, and none for a name that is built in.
    pub fn number(&self, name: &[u8]) -> Option<u32>
        ensures number { result ≡ number_in self.now name.now }
        ensures within { IfSome result (λ at. at < length self.now) }
        ensures rule { MatchOption result (rule_of self.now name.now ≡ None) (λ at. rule_of self.now name.now ≡ slice_get self.now at) }
    {
        match self.numbers.get_index_of(name) {
            Some(at) => Some(at as u32),
            None => None,
        }
    }

    /// The rule with this number, from 0.
    pub fn rule(&self, at: u32) -> &'a Rule
        requires { at < length self.now }
        ensures { slice_get self.now at ≡ Some result.now }
    {
        self.rules.get(at)
    }
}
