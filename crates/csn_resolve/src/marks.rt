ghost use Rattle.std.specs.Prelude.{◌≡◌, ◌<◌, ◌↔◌, true, false, IsTrue, length, IfOk};
ghost use Rattle.csn_grammar.specs.declared.exponent.Exponent.TheVariants.{Number};
ghost use Rattle.csn_grammar.specs.ExprV.{exprs_of, branches_of};
ghost use Rattle.csn_resolve.specs.Tests.{is_void, some_void, all_void};
ghost use Rattle.csn_resolve.specs.Tests.{is_narrow, few_bits};
ghost use Rattle.csn_resolve.specs.Marked.{marked, passes, Passes, AreSound, AreClosed, IsClosedAt, unmarked};

use crate::form::{unit_of, width_of};
use crate::names::Names;
use csn_bits::NoMemory;
use csn_desc::Reading;
use csn_grammar::{Branches, Exponent, Expr, Exprs, Form};
use std::alloc::Global;
use std::marker::Model;

/// What is asked of an expression in one reading.
#[derive(Clone, Copy)]
pub enum Test {
    /// Is it empty of strings?
    Void(Reading),
    /// Is it a field of constant width, of 1 to 16 bits?
    Narrow(Reading),
}

/// The rules whose expressions pass a test. A contract sees the rules and the test.
#[derive(Drop)]
pub struct Marks<'a> {
    names: &'a Names<'a>,
    test: Test,
    marks: Vec<bool>,
}

impl<'a> Model for Marks<'a> {
    ghost use Rattle.std.specs.Coded.{codes};
    ghost use Rattle.csn_grammar.specs.RulesV.{rules_code};
    ghost use Rattle.csn_resolve.specs.Marked.{MarksV, AreLeast};

    ghost Value = { MarksV };

    ghost coded = { Prim.hlevel (codes, rules_code) };

    ghost view = { λ m. record { rules = m.names.now; test = m.test } };

    ghost invariant = { λ m. AreLeast m.names.now m.test m.marks.items };
}

impl<'a> Marks<'a> {
    /// The marks of rules for a test. Rules are asked until none more passes: the time is that of at most
    /// as many rounds through all rules as some rule stands on others, one round more, and the last rule
    /// is asked first, so that two rounds do where rules stand before those that they use.
    pub fn new(alloc: Global, names: &'a Names<'a>, test: Test) -> Result<Marks<'a>, NoMemory>
        ensures { IfOk result (λ marks. marks ≡ record { rules = names.now; test = test }) }
    {
        let mut marks = Vec::new(alloc);
        for _ in 0..names.len() {
            marks.push(false)?;
        }
        while ask_all(names, test, &mut marks) {}
        Ok(Marks { names, test, marks })
    }

    /// Whether an expression passes.
    pub fn pass(&self, x: &Expr) -> bool
        ensures { IsTrue result ↔ Passes self.now.rules self.now.test x.now }
    {
        passes(self.names, self.test, self.marks.as_slice(), x)
    }
}

/// Asks each rule that has not passed, and marks those that pass now: whether there are any.
fn ask_all(names: &Names<'_>, test: Test, marks: &mut Vec<bool>) -> bool
    requires { length marks.old.items ≡ length names.now }
    ensures len { length marks.new.items ≡ length names.now }
    ensures sound { AreSound names.now test marks.old.items → AreSound names.now test marks.new.items }
    ensures more { IsTrue result → unmarked marks.new.items < unmarked marks.old.items }
    ensures closed { result ≡ false → AreClosed names.now test marks.new.items }
{
    let mut found = false;
    for at in (0..names.len()).rev() {
        found |= ask(names, test, at, marks);
    }
    found
}

/// Asks the rule with this number, if it has not passed: whether it passes now, and is marked.
fn ask(names: &Names<'_>, test: Test, at: u32, marks: &mut Vec<bool>) -> bool
    requires long { length marks.old.items ≡ length names.now }
    requires within { at < length names.now }
    ensures len { length marks.new.items ≡ length names.now }
    ensures sound { AreSound names.now test marks.old.items → AreSound names.now test marks.new.items }
    ensures more { result ≡ true → unmarked marks.new.items < unmarked marks.old.items }
    ensures same { result ≡ false → marks.new.items ≡ marks.old.items }
    ensures closed { result ≡ false → IsClosedAt names.now test marks.old.items at }
{
    let number = at as usize;
    if marks[number] {
        return false;
    }
    if !passes(names, test, marks.as_slice(), &names.rule(at).body) {
        return false;
    }
    marks[number] = true;
    true
}

/// Whether an expression passes, where the marked rules do.
fn passes(names: &Names<'_>, test: Test, marks: &[bool], x: &Expr) -> bool
    requires { length marks.now ≡ length names.now }
    ensures { result ≡ passes test (marked names.now marks.now) x.now }
{
    match test {
        Test::Void(reading) => is_void(reading, names, marks, x),
        Test::Narrow(reading) => is_narrow(reading, names, marks, x),
    }
}

/// Whether the rule of a name is marked.
fn is_marked(names: &Names<'_>, marks: &[bool], name: &[u8]) -> bool
    requires { length marks.now ≡ length names.now }
    ensures { result ≡ marked names.now marks.now name.now }
{
    match names.number(name) {
        Some(at) => marks[at as usize],
        None => false,
    }
}

#[cycle(void)]
fn is_void(reading: Reading, names: &Names<'_>, marks: &[bool], x: &Expr) -> bool
    requires { length marks.now ≡ length names.now }
    ensures { result ≡ is_void reading (marked names.now marks.now) x.now }
{
    match &x.form {
        Form::Name(name) => {
            name.bytes() == b"no string".as_slice() || is_marked(names, marks, name.bytes())
        }
        Form::Labelled(_, part) => is_void(reading, names, marks, part),
        Form::Group(part) => is_void(reading, names, marks, part),
        Form::Seq(items) => some_void(reading, names, marks, items),
        Form::Choice(branches) => all_void(reading, names, marks, branches),
        Form::Both(left, right) => {
            if width_of(left).is_some() {
                is_void(reading, names, marks, right)
            } else {
                width_of(right).is_some() && is_void(reading, names, marks, left)
            }
        }
        Form::Sends(left, right) => match reading {
            Reading::Received => is_void(reading, names, marks, left),
            Reading::Sent => is_void(reading, names, marks, right),
        },
        _ => false,
    }
}

/// Whether some item is empty of strings.
#[cycle(void)]
fn some_void(reading: Reading, names: &Names<'_>, marks: &[bool], items: &Exprs) -> bool
    requires { length marks.now ≡ length names.now }
    ensures { result ≡ some_void reading (marked names.now marks.now) (exprs_of items.now) }
{
    for at in 0..items.len() {
        if is_void(reading, names, marks, items.get(at)) {
            return true;
        }
    }
    false
}

/// Whether each alternative that does not stand behind `!` is empty of strings.
#[cycle(void)]
fn all_void(reading: Reading, names: &Names<'_>, marks: &[bool], branches: &Branches) -> bool
    requires { length marks.now ≡ length names.now }
    ensures { result ≡ all_void reading (marked names.now marks.now) (branches_of branches.now) }
{
    for at in 0..branches.len() {
        let branch = branches.get(at);
        if !branch.error && !is_void(reading, names, marks, &branch.body) {
            return false;
        }
    }
    true
}

/// Whether an expression is a field of constant width, of 1 to 16 bits.
fn is_narrow(reading: Reading, names: &Names<'_>, marks: &[bool], x: &Expr) -> bool
    requires { length marks.now ≡ length names.now }
    ensures { result ≡ is_narrow reading (marked names.now marks.now) x.now }
{
    match &x.form {
        Form::Bit => true,
        Form::Octet => true,
        Form::Power(part, Exponent::Number(count)) => match unit_of(part) {
            Some(unit) => has_few_bits(unit, *count),
            None => false,
        },
        Form::Name(name) => is_marked(names, marks, name.bytes()),
        Form::Group(part) => is_narrow(reading, names, marks, part),
        Form::Sends(left, right) => match reading {
            Reading::Received => is_narrow(reading, names, marks, left),
            Reading::Sent => is_narrow(reading, names, marks, right),
        },
        _ => false,
    }
}

/// Whether a number of units is 1 to 16 bits.
fn has_few_bits(unit: u8, count: u32) -> bool
    ensures { result ≡ few_bits unit (Number count) }
{
    let bits = u64::from(unit) * u64::from(count);
    1 <= bits && bits <= 16
}
