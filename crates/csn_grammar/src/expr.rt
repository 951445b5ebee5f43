use crate::exponent::Exponent;
use csn_desc::{Label, Listed, Run};
use csn_lexer::MOST_TEXT;
use std::marker::Model;

/// The most braces and labelled parts that stand inside one another.
pub const MOST_OPEN: usize = 64;

/// A piece of the text: the place of its first byte and the place behind its last one, in bytes from
/// 0.
#[derive(Clone, Copy, Debug, PartialEq, Eq)]
pub struct Span {
    pub start: u32,
    pub end: u32,
}

/// An expression and where it stands. A contract sees it as plain data.
#[cycle(expr)]
#[derive(Drop)]
pub struct Expr {
    pub span: Span,
    pub form: Form,
}

/// The forms of an expression.
#[cycle(expr)]
#[derive(Drop)]
pub enum Form {
    /// A literal word of `0`, `1`, `L` and `H`.
    Lits(Run),
    /// `null`: no bits.
    Null,
    /// `bit`
    Bit,
    /// `octet`: eight bits.
    Octet,
    /// `<name>`: what the rule of this name says.
    Name(Label),
    /// `<label : x>`
    Labelled(Label, Box<Expr>),
    /// `{ x }`. Braces before `//` hold a `Cut`.
    Group(Box<Expr>),
    /// Two or more items one after another.
    Seq(Exprs),
    /// Two or more alternatives.
    Choice(Branches),
    /// A part and how often it stands.
    Power(Box<Expr>, Exponent),
    /// The components of a truncation: any number of them, from the first on, may stand.
    Cut(Exprs),
    /// `x & y`
    Both(Box<Expr>, Box<Expr>),
    /// `x = y`: a receiver takes x, a sender y.
    Sends(Box<Expr>, Box<Expr>),
}

/// Expressions one after another.
pub type Exprs = Listed<Expr, MOST_TEXT>;

/// An alternative. An error branch is one that stands behind `!`.
#[cycle(expr)]
#[derive(Drop)]
pub struct Branch {
    pub error: bool,
    pub body: Expr,
}

/// The alternatives of a choice, in their order.
pub type Branches = Listed<Branch, MOST_TEXT>;

impl Model for Expr {
    ghost use Rattle.csn_grammar.specs.ExprV.{ExprV};

    ghost Value = { ExprV };

    ghost use Rattle.csn_grammar.specs.ExprCode.{expr_code, expr_size};

    ghost coded = { expr_code };

    ghost use Rattle.csn_grammar.specs.FormView.{expr_view};

    ghost view = { λ e. expr_view e.span e.form };

    ghost size = { expr_size };

    ghost use Rattle.std.proofs.Common.{arith};
    ghost use Rattle.csn_grammar.specs.ExprFalls.{deep_le-form_size};

    ghost size_decreases = { λ a h. omega (arith, deep_le-form_size a.form) };
}

impl Model for Branch {
    ghost use Rattle.csn_grammar.specs.ExprV.{BranchV};

    ghost Value = { BranchV };

    ghost use Rattle.csn_grammar.specs.ExprCode.{branch_code, branch_size};

    ghost coded = { branch_code };

    ghost view = { λ b. record { error = b.error; body = b.body } };

    ghost size = { branch_size };

    ghost use Rattle.std.proofs.Common.{arith};

    ghost size_decreases = { λ a h. Prim.grind arith };
}
