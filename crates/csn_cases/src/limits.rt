//! The limits near 16 MiB, each in a test of its own, since a run over so much takes seconds.

use crate::runs::{FIELDS, Files, Ran, expect, file, ran_unwatched};
use std::alloc::{AllocError, Global};
use std::collections::BTreeMap;
use std::process::Abort;
use std::test::Fail;

/// How many bytes an input or a certificate has at most.
const MOST: usize = 16_777_216;

const SHOW: &[&str] = &["show", "F", "M", "received"];

/// How many bytes the lines of such an input have, each with its line feed.
const LINE: usize = 65_536;

/// Lines of so many bytes in all, each of this byte as often as it has room for it.
pub(crate) fn lines(alloc: Global, byte: u8, count: usize) -> Result<Vec<u8>, AllocError> {
    let mut bytes = vec![in alloc; byte; count]?;
    for line in bytes.chunks_mut(LINE) {
        if let Some(last) = line.last_mut() {
            *last = b'\n';
        }
    }
    Ok(bytes)
}

/// A text so many times.
pub(crate) fn repeated(alloc: Global, text: &[u8], times: usize) -> Result<Vec<u8>, AllocError> {
    let mut all = Vec::new(alloc);
    for _ in 0..times {
        all.extend_from_slice(text)?;
    }
    Ok(all)
}

/// A run of `show` over the description of fields and lines of an odd number of digits, of so many bytes in all, which ends
/// with this status.
fn expect_shown(
    rt: &impl Abort,
    alloc: Global,
    count: usize,
    status: u8,
) -> Result<(), AllocError> {
    let files = file(alloc, FIELDS)?;
    let ran = ran_unwatched(alloc, SHOW, files, lines(alloc, b'0', count)?)?;
    let text = repeated(alloc, b"bad 2\n", MOST / LINE)?;
    expect(rt, &ran, &text, status, "lines of an odd number of digits");
    Ok(())
}

#[test]
fn an_input_of_the_greatest_length_is_read(rt: HostRuntime) -> Result<(), Fail> {
    expect_shown(&rt, rt.alloc(), MOST, 1)?;
    Ok(())
}

#[test]
fn a_longer_input_is_refused(rt: HostRuntime) -> Result<(), Fail> {
    expect_shown(&rt, rt.alloc(), MOST + 1, 8)?;
    Ok(())
}

/// A run of `migrate` over a tree, lines without trees, and this end, which comes behind all but one of the bytes that an
/// input may have. It answers the lines, and then this, and ends with this status.
fn expect_migrated(
    rt: &impl Abort,
    alloc: Global,
    end: &[u8],
    answer: &[u8],
    status: u8,
) -> Result<(), AllocError> {
    let mut input = Vec::from_slice(alloc, b"b\n")?;
    input.extend_from_slice(&lines(alloc, b'x', MOST - 3)?)?;
    input.extend_from_slice(end)?;
    let ran = ran_unwatched(alloc, &["migrate"], BTreeMap::new(alloc), input)?;
    let mut text = Vec::from_slice(alloc, b"ok b\n")?;
    text.extend_from_slice(&repeated(alloc, b"bad 0\n", MOST / LINE)?)?;
    text.extend_from_slice(answer)?;
    expect(rt, &ran, &text, status, "lines without trees");
    Ok(())
}

#[test]
fn an_old_input_of_the_greatest_length_is_read(rt: HostRuntime) -> Result<(), Fail> {
    expect_migrated(&rt, rt.alloc(), b"b", b"ok b\n", 1)?;
    Ok(())
}

#[test]
fn a_longer_old_input_is_refused(rt: HostRuntime) -> Result<(), Fail> {
    expect_migrated(&rt, rt.alloc(), b"bb", b"", 8)?;
    Ok(())
}

/// A description in F, and so many bytes in C.
fn with_certificate(alloc: Global, count: usize) -> Result<Files, AllocError> {
    let mut files = file(alloc, b"<M> ::= <A : bit> ;")?;
    let name = String::from_str(alloc, "C")?;
    files.insert(name, vec![in alloc; b'x'; count]?)?;
    Ok(files)
}

/// A run of `verify` of the rule of a name with a certificate of so many bytes.
fn verified(alloc: Global, name: &str, count: usize) -> Result<Ran, AllocError> {
    let files = with_certificate(alloc, count)?;
    let words = ["verify", "F", name, "received", "C"];
    ran_unwatched(alloc, &words, files, Vec::new(alloc))
}

#[test]
fn a_certificate_of_the_greatest_length_is_read(rt: HostRuntime) -> Result<(), Fail> {
    let ran = verified(rt.alloc(), "M", MOST)?;
    expect(&rt, &ran, b"unproved 1 0\n", 4, "no certificate");
    Ok(())
}

#[test]
fn a_longer_certificate_is_refused(rt: HostRuntime) -> Result<(), Fail> {
    let ran = verified(rt.alloc(), "M", MOST + 1)?;
    expect(&rt, &ran, b"", 8, "a certificate that is too long");
    Ok(())
}

/// A certificate is measured behind the description.
#[test]
fn a_description_is_refused_before_its_certificate(rt: HostRuntime) -> Result<(), Fail> {
    let ran = verified(rt.alloc(), "N", MOST + 1)?;
    expect(&rt, &ran, b"description 1 0\n", 3, "a refused description");
    Ok(())
}
