ghost use Rattle.std.specs.Prelude.{◌≡◌};
ghost use Rattle.std.specs.Option.{option_map};
ghost use Rattle.csn_grammar.specs.Forms.{unit_of, width_of, window_of};
ghost use Rattle.csn_resolve.specs.Views.{width_view, window_view};

use csn_grammar::{Exponent, Expr, Form};

/// How many bits `bit` and `octet` are.
pub fn unit_of(x: &Expr) -> Option<u8>
    ensures { result ≡ unit_of x.now }
{
    match &x.form {
        Form::Bit => Some(1),
        Form::Octet => Some(8),
        _ => None,
    }
}

/// A number of units, of one bit or of eight: one, or as many as the exponent says.
#[derive(Clone, Copy)]
pub struct Width<'a> {
    pub unit: u8,
    pub count: Option<&'a Exponent>,
}

/// The width of a field: of `bit` and `octet`, bare or with a number exponent.
pub fn width_of<'a>(x: &'a Expr) -> Option<Width<'a>>
    ensures { option_map width_view result ≡ width_of x.now }
{
    match &x.form {
        Form::Bit => Some(Width {
            unit: 1,
            count: None,
        }),
        Form::Octet => Some(Width {
            unit: 8,
            count: None,
        }),
        Form::Power(_, Exponent::Any) => None,
        Form::Power(part, count) => {
            let unit = unit_of(part)?;
            Some(Width {
                unit,
                count: Some(count),
            })
        }
        _ => None,
    }
}

/// A window: so many bits, which its part has.
#[derive(Clone, Copy)]
pub(crate) struct Window<'a> {
    pub width: Width<'a>,
    pub part: &'a Expr,
}

/// The window that two sides of `&` are: one says the width, the left one where both could.
pub(crate) fn window_of<'a>(left: &'a Expr, right: &'a Expr) -> Option<Window<'a>>
    ensures { option_map window_view result ≡ window_of left.now right.now }
{
    if let Some(width) = width_of(left) {
        return Some(Window { width, part: right });
    }
    let width = width_of(right)?;
    Some(Window { width, part: left })
}
