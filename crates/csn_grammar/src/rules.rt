ghost use Rattle.std.specs.Prelude.{◌≡◌, ◌<◌, ◌≤◌, length, slice_get, Some};
ghost use Rattle.csn_lexer.specs.declared.token.TheConstants.{MOST_TEXT};
ghost use Rattle.csn_grammar.specs.Shaped.{AreShaped};

use crate::expr::{Expr, Span};
use csn_desc::{Label, Listed};
use csn_lexer::MOST_TEXT;
use std::marker::Model;

/// A rule: its name, the piece of the text from its `<` to its `;`, and what it says.
#[derive(Drop)]
pub struct Rule {
    pub name: Label,
    pub span: Span,
    pub body: Expr,
}

/// The rules of a text, in their order. A contract sees the list of them.
#[derive(Drop)]
pub struct Rules {
    rules: RulesRead,
}

impl Model for Rules {
    ghost use Rattle.csn_grammar.specs.RulesV.{RulesV, rules_code};
    ghost use Rattle.csn_grammar.specs.Shaped.{AreShaped};

    ghost Value = { RulesV };

    ghost coded = { rules_code };

    ghost view = { λ r. r.rules };

    ghost invariant = { λ r. AreShaped r.rules };
}

impl Rules {
    // The rules of a whole text.
    pub(crate) fn of(rules: RulesRead) -> Rules
        requires shaped { AreShaped rules }
        ensures { result ≡ rules }
    {
        Rules { rules }
    }

    /// How many rules there are.
    pub fn len(&self) -> u32
        ensures len { result ≡ length self.now }
        ensures bound { result ≤ MOST_TEXT }
        ensures shaped { AreShaped self.now }
    {
        self.rules.len()
    }

    /// The rule at the place `at`, counted from 0.
    pub fn get(&self, at: u32) -> &Rule
        requires { at < length self.now }
        ensures { slice_get self.now at ≡ Some result.now }
    {
        self.rules.get(at)
    }
}

/// Rules that are read so far.
pub(crate) type RulesRead = Listed<Rule, MOST_TEXT>;
