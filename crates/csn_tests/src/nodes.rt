use crate::texts::desc_of;
use csn_desc::{Count, Desc, Node, Parts, Reading, Symbol};
use csn_resolve::{ResolveFault, Why};
use std::alloc::Global;
use std::test::Fail;

#[test]
fn refusals_have_their_numbers(rt: HostRuntime) {
    let numbers = [Why::Undefined, Why::NoString, Why::TooManyVals].map(|why| why.number());
    let fault = ResolveFault::Refused {
        why: Why::Recursive,
        place: 10,
    };
    let again = ResolveFault::Refused {
        why: Why::Recursive,
        place: 10,
    };
    assert_eq!(rt;
        (numbers, fault == again, fault == ResolveFault::NoMemory),
        ([1, 10, 13], true, false)
    );
}

// Each node in a few letters, with the numbers of its parts.
fn spelled(alloc: Global, desc: &Desc) -> Result<String, Fail> {
    let mut text = String::new(alloc);
    for i in 0..desc.len() {
        if i > 0 {
            text.push_str(" ")?;
        }
        let node = spelled_node(alloc, desc.node(i))?;
        text.push_str(node.as_str())?;
    }
    Ok(text)
}

fn spelled_node(alloc: Global, node: &Node) -> Result<String, Fail> {
    Ok(match node {
        Node::Lits(run) => {
            let len = run.len();
            format!(in alloc; "lits{len}")?
        }
        Node::Spare(symbol) => {
            let low = *symbol == Symbol::Low;
            format!(in alloc; "spare-{low}")?
        }
        Node::Pad => format!(in alloc; "pad")?,
        Node::Null => format!(in alloc; "null")?,
        Node::Field { unit, count } => {
            let count = spelled_count(alloc, count)?;
            let count = count.as_str();
            format!(in alloc; "field{unit}:{count}")?
        }
        Node::Rest => format!(in alloc; "rest")?,
        Node::Seq(parts) => {
            let parts = spelled_parts(alloc, parts)?;
            let parts = parts.as_str();
            format!(in alloc; "seq{parts}")?
        }
        Node::Choice(parts) => {
            let parts = spelled_parts(alloc, parts)?;
            let parts = parts.as_str();
            format!(in alloc; "choice{parts}")?
        }
        Node::Times { count, part } => {
            let count = spelled_count(alloc, count)?;
            let count = count.as_str();
            format!(in alloc; "times{count}:{part}")?
        }
        Node::Many(part) => format!(in alloc; "many:{part}")?,
        Node::Trunc(parts) => {
            let parts = spelled_parts(alloc, parts)?;
            let parts = parts.as_str();
            format!(in alloc; "trunc{parts}")?
        }
        Node::Window { unit, count, part } => {
            let count = spelled_count(alloc, count)?;
            let count = count.as_str();
            format!(in alloc; "window{unit}:{count}:{part}")?
        }
        Node::Named { label, part } => {
            let len = label.bytes().len();
            format!(in alloc; "named{len}:{part}")?
        }
    })
}

fn spelled_count(alloc: Global, count: &Count) -> Result<String, Fail> {
    Ok(match count {
        Count::Fixed(n) => format!(in alloc; "{n}")?,
        Count::Counted { m, field, c } => format!(in alloc; "{m}*@{field}+{c}")?,
    })
}

fn spelled_parts(alloc: Global, parts: &Parts) -> Result<String, Fail> {
    let mut text = String::new(alloc);
    for at in 0..parts.len() {
        let part = parts.get(at);
        let part = format!(in alloc; "/{part}")?;
        text.push_str(part.as_str())?;
    }
    Ok(text)
}

// The nodes of the text's rule M.
fn nodes_of(alloc: Global, text: &str, reading: Reading) -> Result<String, Fail> {
    spelled(alloc, &desc_of(alloc, text, reading)?)
}

// Texts, and their nodes in the reading received and in the reading sent.
const NODES: &[(&str, &str, &str)] = &[
    ("<M> ::= 01L ;", "lits3", "lits3"),
    (
        "<M> ::= <spare bit> <spare L> <spare padding> ;",
        "seq/1/2/3 spare-false spare-true pad",
        "seq/1/2/3 spare-false spare-true pad",
    ),
    ("<M> ::= { 0 } ;", "lits1", "lits1"),
    (
        "<M> ::= { 0 | 1 } ;",
        "choice/1/2 lits1 lits1",
        "choice/1/2 lits1 lits1",
    ),
    (
        "<M> ::= { 0 <A : bit> ! <Bad : 1 bit (**) = <no string>> } ;",
        "seq/1/2 lits1 named1:3 field1:1",
        "seq/1/2 lits1 named1:3 field1:1",
    ),
    (
        "<M> ::= { 0 | 1 = <no string> | bit (2) = octet } ;",
        "choice/1/2/3 lits1 lits1 field1:2",
        "choice/1/2 lits1 field8:1",
    ),
    (
        "<M> ::= <A : bit (3)> { 0 | 1 <M> } ;",
        "seq/1/3/8 named1:2 field1:3 many:4 seq/5/6 lits1 named1:7 field1:3 lits1",
        "seq/1/3/8 named1:2 field1:3 many:4 seq/5/6 lits1 named1:7 field1:3 lits1",
    ),
    (
        "<M> ::= { bit | octet } ** 0 null ;",
        "seq/1/5/6 many:2 choice/3/4 field1:1 field8:1 lits1 null",
        "seq/1/5/6 many:2 choice/3/4 field1:1 field8:1 lits1 null",
    ),
    (
        "<M> ::= { <A : bit> <B : bit> } // bit (**) ;",
        "seq/1/6 trunc/2/4 named1:3 field1:1 named1:5 field1:1 rest",
        "seq/1/6 trunc/2/4 named1:3 field1:1 named1:5 field1:1 rest",
    ),
    (
        "<M> ::= <N : bit (3)> bit (val(N)) octet (2 * val(N)) { 0 | 1 } (val(N) + 1) bit (3 * val(N) + 4) & { 1 } ** ;",
        "seq/1/3/4/5/9 named1:2 field1:3 field1:1*@1+0 field8:2*@1+0 times1*@1+1:6 choice/7/8 lits1 lits1 window1:3*@1+4:10 many:11 lits1",
        "seq/1/3/4/5/9 named1:2 field1:3 field1:1*@1+0 field8:2*@1+0 times1*@1+1:6 choice/7/8 lits1 lits1 window1:3*@1+4:10 many:11 lits1",
    ),
    (
        "<M> ::= <N : bit (3)> <N : bit (4)> { bit (val(N)) <N : octet> } octet (val(N)) ;",
        "seq/1/3/5/9 named1:2 field1:3 named1:4 field1:4 seq/6/7 field1:1*@3+0 named1:8 field8:1 field8:1*@3+0",
        "seq/1/3/5/9 named1:2 field1:3 named1:4 field1:4 seq/6/7 field1:1*@3+0 named1:8 field8:1 field8:1*@3+0",
    ),
    (
        "<A> ::= bit (val(N)) ; <M> ::= <N : bit = octet> { 0 | <A> } * 3 ;",
        "seq/1/3 named1:2 field1:1 times3:4 choice/5/6 lits1 field1:1*@1+0",
        "seq/1/3 named1:2 field8:1 times3:4 choice/5/6 lits1 field1:1*@1+0",
    ),
];

#[test]
fn rules_give_their_nodes(rt: HostRuntime) -> Result<(), Fail> {
    for &(text, received, sent) in NODES {
        let taken = nodes_of(rt.alloc(), text, Reading::Received)?;
        let written = nodes_of(rt.alloc(), text, Reading::Sent)?;
        assert_eq!(rt;
            (text, taken.as_str(), written.as_str()),
            (text, received, sent)
        );
    }
    Ok(())
}
