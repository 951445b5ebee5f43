ghost use Rattle.std.specs.Prelude.{◌≡◌, is_some};
ghost use Rattle.csn_grammar.specs.Forms.{width_of};
ghost use Rattle.csn_places.specs.Origins.{is_one_node};

use csn_grammar::{Exponent, Expr, Form};
use csn_resolve::{unit_of, width_of};

/// Whether an expression says a width: `bit` and `octet`, bare or with a number exponent.
pub(crate) fn is_width(x: &Expr) -> bool
    ensures { result ≡ is_some (width_of x.now) }
{
    width_of(x).is_some()
}

/// Whether a part with an exponent is a field, or `bit **`: a node that has no part.
pub(crate) fn is_one_node(part: &Expr, count: &Exponent) -> bool
    ensures { result ≡ is_one_node part.now count.now }
{
    match count {
        Exponent::Any => matches!(part.form, Form::Bit),
        _ => unit_of(part).is_some(),
    }
}
