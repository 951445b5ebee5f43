//! The expressions that the reader makes of smaller ones.

ghost use Rattle.std.specs.Prelude.{◌≡◌, IfOk};
ghost use Rattle.csn_grammar.specs.ExprV.{expr, group, labelled};
ghost use Rattle.csn_grammar.specs.Grammar.{components_of};
ghost use Rattle.csn_grammar.specs.reader.Building.{joined, power_of, seq_with, cut_with, choice_with};

use crate::exponent::Exponent;
use crate::expr::{Branch, Branches, Expr, Exprs, Form, Span};
use crate::reader::body::Joint;
use csn_bits::NoMemory;
use csn_desc::Label;
use std::alloc::Global;

// From the start of a piece of the text to the end of a later one.
fn across(first: Span, last: Span) -> Span
    ensures { result ≡ record { start = first.start; end = last.end } }
{
    Span {
        start: first.start,
        end: last.end,
    }
}

// Two expressions that a larger one holds.
fn boxed(alloc: Global, x: Expr, y: Expr) -> Result<(Box<Expr>, Box<Expr>), NoMemory>
    ensures x { IfOk result (λ pair. pair.0.value ≡ x) }
    ensures y { IfOk result (λ pair. pair.1.value ≡ y) }
{
    match Box::new(alloc, x) {
        Ok(x) => Ok((x, Box::new(alloc, y)?)),
        Err(failed) => {
            drop(failed.value);
            drop(y);
            Err(NoMemory)
        }
    }
}

/// A side with what stands before it in the same item.
pub fn joined(alloc: Global, joint: Joint, side: Expr) -> Result<Expr, NoMemory>
    ensures { IfOk result (λ whole. whole ≡ joined joint side) }
{
    match joint {
        Joint::Alone => Ok(side),
        Joint::Window(left) => {
            let span = across(left.span, side.span);
            let (left, side) = boxed(alloc, left, side)?;
            let form = Form::Both(left, side);
            Ok(Expr { span, form })
        }
        Joint::Sends(left) => {
            let span = across(left.span, side.span);
            let (left, side) = boxed(alloc, left, side)?;
            let form = Form::Sends(left, side);
            Ok(Expr { span, form })
        }
    }
}

/// A base with its exponent, which ends before the place `end`.
pub fn power_of(alloc: Global, x: Expr, end: u32, exponent: Exponent) -> Result<Expr, NoMemory>
    ensures { IfOk result (λ whole. whole ≡ power_of x end exponent) }
{
    let span = Span {
        start: x.span.start,
        end,
    };
    let form = Form::Power(Box::new(alloc, x)?, exponent);
    Ok(Expr { span, form })
}

/// `{ x }`
pub fn group_of(alloc: Global, span: Span, x: Expr) -> Result<Expr, NoMemory>
    ensures { IfOk result (λ whole. whole ≡ expr span.start span.end (group x)) }
{
    let form = Form::Group(Box::new(alloc, x)?);
    Ok(Expr { span, form })
}

/// `<label : x>`
pub fn labelled_of(alloc: Global, span: Span, label: Label, x: Expr) -> Result<Expr, NoMemory>
    ensures { IfOk result (λ whole. whole ≡ expr span.start span.end (labelled label x)) }
{
    let form = Form::Labelled(label.share()?, Box::new(alloc, x)?);
    Ok(Expr { span, form })
}

/// The sequence of some items and a last one: of one item, that item.
pub fn seq_with(mut items: Exprs, last: Expr) -> Result<Expr, NoMemory>
    ensures { IfOk result (λ whole. whole ≡ seq_with items last) }
{
    if items.len() == 0 {
        return Ok(last);
    }
    let span = across(items.get(0).span, last.span);
    items.add(last)?;
    Ok(Expr {
        span,
        form: Form::Seq(items),
    })
}

/// The truncation of some items and a last one, which ends before the place `end`.
pub fn cut_with(mut items: Exprs, last: Expr, end: u32) -> Result<Expr, NoMemory>
    ensures { IfOk result (λ whole. whole ≡ cut_with items last end) }
{
    let start = if items.len() == 0 {
        last.span.start
    } else {
        items.get(0).span.start
    };
    items.add(last)?;
    Ok(Expr {
        span: Span { start, end },
        form: Form::Cut(items),
    })
}

/// The choice of some alternatives and a last one: of one alternative, that alternative.
pub fn choice_with(mut branches: Branches, error: bool, last: Expr) -> Result<Expr, NoMemory>
    ensures { IfOk result (λ whole. whole ≡ choice_with branches error last) }
{
    if branches.len() == 0 {
        return Ok(last);
    }
    let span = across(branches.get(0).body.span, last.span);
    branches.add(Branch { error, body: last })?;
    Ok(Expr {
        span,
        form: Form::Choice(branches),
    })
}

/// The components of a truncation in braces.
pub fn components_of(alloc: Global, x: Expr) -> Result<Expr, NoMemory>
    ensures { IfOk result (λ whole. whole ≡ components_of x) }
{
    let span = x.span;
    match x.form {
        Form::Seq(items) => Ok(Expr {
            span,
            form: Form::Cut(items),
        }),
        form => {
            let mut items = Exprs::new(alloc);
            items.add(Expr { span, form })?;
            Ok(Expr {
                span,
                form: Form::Cut(items),
            })
        }
    }
}
