ghost use Rattle.std.specs.Prelude.{◌≡◌, ◌+◌, ◌<◌, length, IfSome};
ghost use Rattle.std.specs.Option.{option_map, option_or, option_copied};
ghost use Rattle.csn_grammar.specs.ExprCode.{expr_size, list_size};
ghost use Rattle.csn_grammar.specs.TailForm.{word_of, again_of, end_with, end_of, tail_of, tail_of_body};
ghost use Rattle.csn_resolve.specs.Views.{word_view, end_view, tail_view, name_in};

use csn_desc::{Label, Run};
use csn_grammar::{Expr, Exprs, Form, Rule};

/// A literal word, and where it begins in the text, in bytes from 0.
#[derive(Clone, Copy)]
pub struct Word<'a> {
    pub at: u32,
    pub run: &'a Run,
}

/// How a rule in tail form goes on and stops: where its braces begin in the text, in bytes from 0, the word
/// before its own name, and the word that is the other alternative.
#[derive(Clone, Copy)]
pub struct End<'a> {
    pub braces: u32,
    pub again: Word<'a>,
    pub stop: Word<'a>,
}

/// A rule in tail form: its first `count` items stand before the braces.
#[derive(Clone, Copy)]
pub struct Tail<'a> {
    pub items: &'a Exprs,
    pub count: u32,
    pub end: End<'a>,
}

/// The tail form of a rule, if it is in tail form.
pub fn tail_of<'a>(rule: &'a Rule) -> Option<Tail<'a>>
    ensures tail { option_map tail_view result ≡ tail_of rule.now }
    ensures within { IfSome result (λ tail. tail.count < length tail.items.now) }
    ensures part { IfSome result (λ tail. list_size tail.items.now + 1 ≡ expr_size rule.now.body) }
{
    tail_of_body(rule.name.bytes(), &rule.body)
}

/// The tail form of a rule that has the name and says this, if it is in tail form.
fn tail_of_body<'a>(name: &[u8], body: &'a Expr) -> Option<Tail<'a>>
    ensures tail { option_map tail_view result ≡ tail_of_body name.now body.now }
    ensures within { IfSome result (λ tail. tail.count < length tail.items.now) }
    ensures part { IfSome result (λ tail. list_size tail.items.now + 1 ≡ expr_size body.now) }
{
    let Form::Seq(items) = &body.form else {
        return None;
    };
    if items.len() < 2 {
        return None;
    }
    let count = items.len() - 1;
    let end = end_of(name, items.get(count))?;
    Some(Tail { items, count, end })
}

/// How braces round two alternatives go on and stop, where one ends in the name and the other is a word.
fn end_of<'a>(name: &[u8], x: &'a Expr) -> Option<End<'a>>
    ensures { option_map end_view result ≡ end_of name.now x.now }
{
    let Form::Group(inner) = &x.form else {
        return None;
    };
    let Form::Choice(branches) = &inner.form else {
        return None;
    };
    if branches.len() != 2 {
        return None;
    }
    let (left, right) = (branches.get(0), branches.get(1));
    if left.error || right.error {
        return None;
    }
    either_end(name, x.span.start, &left.body, &right.body)
}

/// The end that two alternatives are, in either order, in braces that begin at this byte.
fn either_end<'a>(name: &[u8], braces: u32, left: &'a Expr, right: &'a Expr) -> Option<End<'a>>
    ensures { option_map end_view result ≡ option_or
        (end_with braces (again_of name.now right.now) (word_of left.now))
        (end_with braces (again_of name.now left.now) (word_of right.now)) }
{
    match (again_of(name, right), word_of(left)) {
        (Some(again), Some(stop)) => Some(End {
            braces,
            again,
            stop,
        }),
        _ => match (again_of(name, left), word_of(right)) {
            (Some(again), Some(stop)) => Some(End {
                braces,
                again,
                stop,
            }),
            _ => None,
        },
    }
}

/// A literal word.
fn word_of<'a>(x: &'a Expr) -> Option<Word<'a>>
    ensures { option_map word_view result ≡ word_of x.now }
{
    match &x.form {
        Form::Lits(run) => Some(Word {
            at: x.span.start,
            run,
        }),
        _ => None,
    }
}

/// The word of an expression that is a literal word and the name, one behind the other.
fn again_of<'a>(name: &[u8], x: &'a Expr) -> Option<Word<'a>>
    ensures { option_map word_view result ≡ again_of name.now x.now }
{
    let Form::Seq(items) = &x.form else {
        return None;
    };
    if items.len() != 2 {
        return None;
    }
    let last = name_in(items.get(1))?;
    if last.bytes() == name {
        word_of(items.get(0))
    } else {
        None
    }
}

/// The name that an expression is.
fn name_in<'a>(x: &'a Expr) -> Option<&'a Label>
    ensures { option_copied result ≡ name_in x.now }
{
    match &x.form {
        Form::Name(name) => Some(name),
        _ => None,
    }
}
