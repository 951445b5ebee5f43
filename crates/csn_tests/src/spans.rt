//! Where the parts of a rule stand in its text.

use csn_grammar::{Expr, Form, GrammarFault, Rule, Span, read_rules};
use std::process::Abort;
use std::test::Fail;

// Where an expression stands.
fn span_of(expr: &Expr) -> (u32, u32) {
    (expr.span.start, expr.span.end)
}

/// The spans of the parts of `<A : bit (2)> { 0 | 10 } //`, each from its first byte to behind its last.
fn expect_spans(rt: &impl Abort, rule: &Rule) -> Result<(), Fail> {
    let Form::Seq(items) = &rule.body.form else {
        return Err("no sequence".into());
    };
    if items.len() != 2 {
        return Err("not two items".into());
    }
    let Form::Labelled(_, field) = &items.get(0).form else {
        return Err("no labelled part".into());
    };
    let Form::Group(inner) = &items.get(1).form else {
        return Err("no braces".into());
    };
    let Form::Cut(parts) = &inner.form else {
        return Err("no truncation".into());
    };
    if parts.len() != 1 {
        return Err("not one component".into());
    }
    assert_eq!(rt;
        (
            (rule.span, span_of(&rule.body)),
            (span_of(items.get(0)), span_of(field)),
            (span_of(items.get(1)), span_of(inner), span_of(parts.get(0)))
        ),
        (
            (Span { start: 0, end: 37 }, (8, 35)),
            ((8, 21), (13, 20)),
            ((22, 35), (24, 30), (24, 30))
        )
    );
    Ok(())
}

#[test]
fn the_parts_of_a_rule_have_their_spans(rt: HostRuntime) -> Result<(), Fail> {
    let rules = read_rules(rt.alloc(), b"<M> ::= <A : bit (2)> { 0 | 10 } // ;")?;
    if rules.len() != 1 {
        return Err("not one rule".into());
    }
    expect_spans(&rt, rules.get(0))
}

#[test]
fn a_text_without_rules_has_a_place(rt: HostRuntime) {
    let fault = read_rules(rt.alloc(), b"<M> ::= { 0 ;").err();
    assert_eq!(rt; fault, Some(GrammarFault::Syntax { place: 12 }));
}
