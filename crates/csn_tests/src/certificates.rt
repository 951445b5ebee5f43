use crate::texts::desc_of;
use csn_bits::NoMemory;
use csn_cert::{CertFault, Certificate, Mark, Pattern, read_certificate, write_certificate};
use csn_certify::certify;
use csn_certmake::make_certificate;
use csn_desc::{Desc, Reading};
use csn_good::{Checked, check_certificate};
use std::alloc::Global;
use std::test::Fail;

// What may follow a node: the end alone, at each octet position.
const END_ALONE: u32 = 0b001001001001001001001001;

// The certificate of `<M> ::= <A : bit> ;`, of which both nodes are one bit long.
const OF_ONE_BIT: &str =
    "csn-cert 2\nnode 0 0 001001001001001001001001\nat 0 01000000 11 x!\nnode 1 0 001001001001001001001001\nat 0 01000000 11 x!\n";

// One node, with no pattern at one octet position and two of no bits at another.
const NO_PATTERNS: &str =
    "csn-cert 1\nnode 0 1 000000000000000000000000\nat 3 00000000 00 -\nat 7 11111111 10 e!,e+\n";

// The certificate of `<M> ::= { 0 | 1 } ;`.
const OF_TWO: &str =
    "csn-cert 3\nnode 0 0 001001001001001001001001\nat 0 01000000 11 0!,1!\nnode 1 0 001001001001001001001001\nat 0 01000000 10 0!\nnode 2 0 001001001001001001001001\nat 0 01000000 01 1!\n";

// Whether the certificate is written as this text.
fn is_written_as(alloc: Global, c: &Certificate, text: &str) -> Result<bool, NoMemory> {
    Ok(write_certificate(alloc, c)?.as_slice() == text.as_bytes())
}

#[test]
fn a_certificate_tells_its_claims(rt: HostRuntime) -> Result<(), Fail> {
    let mut any = Pattern::new(true);
    any.push(Mark::Any);
    assert_eq!(rt; (any.len(), any.get(0), any.whole()), (1, Mark::Any, true));
    let mut c = Certificate::new(rt.alloc());
    c.node(false, END_ALONE)?;
    c.at(0, 0b01000000, 0b11)?;
    c.pattern(any)?;
    assert_eq!(rt;
        (c.len(), c.nullable(0), c.follow(0), c.has(0, 7)),
        (1, false, END_ALONE, false)
    );
    if !c.has(0, 0) || c.patterns(0, 0) != 1 {
        return Err("not one pattern".into());
    }
    assert_eq!(rt;
        (c.ends(0, 0), c.start(0, 0), c.pattern_at(0, 0, 0).len()),
        (0b01000000, 0b11, 1)
    );
    Ok(())
}

#[test]
fn no_nodes_and_no_patterns_are_written(rt: HostRuntime) -> Result<(), Fail> {
    let mut c = Certificate::new(rt.alloc());
    let no_nodes = is_written_as(rt.alloc(), &c, "csn-cert 0\n")?;
    c.node(true, 0)?;
    c.at(3, 0, 0)?;
    c.at(7, 255, 2)?;
    c.pattern(Pattern::new(true))?;
    c.pattern(Pattern::new(false))?;
    let no_patterns = is_written_as(rt.alloc(), &c, NO_PATTERNS)?;
    assert_eq!(rt; (no_nodes, no_patterns), (true, true));
    Ok(())
}

#[test]
fn a_text_is_read(rt: HostRuntime) -> Result<(), Fail> {
    for text in [
        OF_ONE_BIT,
        "csn-cert 0\n",
        NO_PATTERNS,
        "csn-cert 1\nnode 0 1 100000000000000000000000\nat 0 10000001 00 0!,00+,xxxxxxxxxxxx!\n",
    ] {
        let c = read_certificate(rt.alloc(), text.as_bytes())?;
        let is_same = is_written_as(rt.alloc(), &c, text)?;
        assert_eq!(rt; (text, is_same), (text, true));
    }
    Ok(())
}

// Texts of no certificate.
const OTHERS: [&str; 22] = [
    "",
    "csn-cert 0",
    "csn-cert 00\n",
    "csn-cert 1\n",
    "csn-cert 0\n\n",
    "csn-cert  0\n",
    "csn-cert 01\nnode 0 0 000000000000000000000000\n",
    "csn-cert 1\nnode 1 0 000000000000000000000000\n",
    "csn-cert 1\nnode 00 0 000000000000000000000000\n",
    "csn-cert 1\nnode 0 2 000000000000000000000000\n",
    "csn-cert 1\nnode 0 0 00000000000000000000000\n",
    "csn-cert 1\nnode 0 0 000000000000000000000000",
    "csn-cert 2\nnode 0 0 000000000000000000000000\n",
    "csn-cert 0\nat 0 00000000 00 -\n",
    "csn-cert 1\nnode 0 0 000000000000000000000000\nat 0 00000000 00 -\nat 0 00000000 00 -\n",
    "csn-cert 1\nnode 0 0 000000000000000000000000\nat 8 00000000 00 -\n",
    "csn-cert 1\nnode 0 0 000000000000000000000000\nat 0 00000000 00 \n",
    "csn-cert 1\nnode 0 0 000000000000000000000000\nat 0 00000000 00 1!,0!\n",
    "csn-cert 1\nnode 0 0 000000000000000000000000\nat 0 00000000 00 0!,0!\n",
    "csn-cert 1\nnode 0 0 000000000000000000000000\nat 0 00000000 00 e0!\n",
    "csn-cert 1\nnode 0 0 000000000000000000000000\nat 0 00000000 00 0!,\n",
    "csn-cert 1\nnode 0 0 000000000000000000000000\nat 0 00000000 00 xxxxxxxxxxxxx!\n",
];

#[test]
fn other_bytes_are_refused(rt: HostRuntime) {
    for text in OTHERS {
        let refused = read_certificate(rt.alloc(), text.as_bytes()).err();
        assert_eq!(rt; (text, refused), (text, Some(CertFault::Text)));
    }
}

// The certificate that is made of a description.
fn made(alloc: Global, desc: Desc) -> Result<Certificate, Fail> {
    let plan = certify(alloc, desc)?;
    Ok(make_certificate(alloc, plan)?)
}

// What a certificate comes to for the rule M of a text.
fn checked(alloc: Global, text: &str, c: &Certificate) -> Result<Checked, Fail> {
    let desc = desc_of(alloc, text, Reading::Received)?;
    Ok(check_certificate(alloc, &desc, c)?)
}

#[test]
fn a_certificate_is_made_and_good(rt: HostRuntime) -> Result<(), Fail> {
    let two = "<M> ::= { 0 | 1 } ;";
    let c = made(rt.alloc(), desc_of(rt.alloc(), two, Reading::Received)?)?;
    let written = is_written_as(rt.alloc(), &c, OF_TWO)?;
    let good = checked(rt.alloc(), two, &c)?;
    let other = checked(rt.alloc(), "<M> ::= { null | 1 } ;", &c)?;
    assert_eq!(rt;
        (written, good, other == Checked::Proved),
        (true, Checked::Proved, false)
    );
    Ok(())
}
