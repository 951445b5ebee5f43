//! What a text of trees begins with, in either form.

ghost use Rattle.std.specs.Prelude.{◌≡◌, ◌+◌, ◌<◌, ◌≤◌, ◌↔◌, ◌++◌, ◌∷◌, List, ℕ, length, map, IfSome, IsTrue};
ghost use Rattle.std.specs.Fmt.{decimal};
ghost use Rattle.csn_bits.specs.Line.{upper, written};
ghost use Rattle.csn_bits.specs.Octets.{IsBits};
ghost use Rattle.csn_json.specs.declared.form.TreeForm.TheVariants.{Text as TextForm, Json as JsonForm};
ghost use Rattle.csn_json.specs.Forms.{gap, label_text, mark_text, nothing_text, text_in};
ghost use Rattle.csn_encode.specs.Following.{closing};

use csn_bits::{Bits, MOST_LINE};
use csn_desc::{Shape, Tree};
use csn_json::TreeForm;
use csn_treetext::read_tree;
use memchr::{memchr, memchr2};
use std::alloc::Global;

/// The greatest number to which a digit more can be added.
const MOST_FRONT: u64 = 1_844_674_407_370_955_160;

/// The text behind a byte, where it begins with the byte.
pub(crate) fn behind(text: &[u8], byte: u8) -> Option<&[u8]>
    ensures { IfSome result (λ rest. text.now ≡ byte ∷ rest.now) }
{
    match text {
        [first, rest @ ..] if *first == byte => Some(rest),
        _ => None,
    }
}

/// The text behind some bytes, where it begins with them.
pub(crate) fn behind_all<'a>(text: &'a [u8], bytes: &[u8]) -> Option<&'a [u8]>
    ensures { IfSome result (λ rest. text.now ≡ bytes.now ++ rest.now) }
{
    text.strip_prefix(bytes)
}

/// The text behind what is written for no bits.
#[inline(always)]
pub(crate) fn behind_nothing(form: TreeForm, text: &[u8]) -> Option<&[u8]>
    ensures { IfSome result (λ rest. text.now ≡ nothing_text form ++ rest.now) }
{
    match form {
        TreeForm::Text => behind_all(text, b"."),
        TreeForm::Json => behind_all(text, b"null"),
    }
}

/// The tree of a row that is next: behind what parts two of them, where it is not the first one.
#[inline(always)]
pub(crate) fn next_tree(form: TreeForm, text: &[u8], at: u32) -> Option<&[u8]>
    ensures first { at ≡ 0 → IfSome result (λ rest. text.now ≡ rest.now) }
    ensures later { 0 < at → IfSome result (λ rest. text.now ≡ gap form ∷ rest.now) }
{
    if at == 0 {
        return Some(text);
    }
    match form {
        TreeForm::Text => behind(text, b' '),
        TreeForm::Json => behind(text, b','),
    }
}

/// Whether a row of which so many trees are written goes on, where it has at most so many.
pub(crate) fn goes_on(text: &[u8], at: u32, most: u32) -> bool
    ensures { IsTrue result → at < most }
{
    at < most && behind(text, b']').is_none()
}

// The value of a decimal digit at the front of a text, and the text behind it.
fn digit(text: &[u8]) -> Option<(u8, &[u8])>
    ensures value { IfSome result (λ found. text.now ≡ (48 + found.0) ∷ found.1.now) }
    ensures small { IfSome result (λ found. found.0 < 10) }
{
    match text {
        [byte @ b'0'..=b'9', rest @ ..] => Some((*byte - b'0', rest)),
        _ => None,
    }
}

/// The number that stands at the front of a text, with no zero in front, and the text behind it.
pub(crate) fn number(text: &[u8]) -> Option<(u64, &[u8])>
    ensures { IfSome result (λ found. text.now ≡ decimal found.0 ++ found.1.now) }
{
    let (first, behind) = digit(text)?;
    let mut number = u64::from(first);
    let mut rest = behind;
    while let Some((digit, behind)) = digit(rest) {
        if number == 0 || number >= MOST_FRONT {
            return None;
        }
        number = 10 * number + u64::from(digit);
        rest = behind;
    }
    Some((number, rest))
}

/// The number of an alternative as a text has it, one of so many, and the text of its tree.
fn text_alternative(text: &[u8], count: u16) -> Option<(u16, &[u8])>
    ensures begins { IfSome result (λ found. text.now ≡ mark_text TextForm found.0 ++ found.1.now) }
    ensures few { IfSome result (λ found. found.0 < count) }
{
    let (number, tail) = number(behind(text, b'#')?)?;
    if number >= u64::from(count) {
        return None;
    }
    Some((number as u16, behind(tail, b':')?))
}

/// The same as JSON has it.
fn json_alternative(text: &[u8], count: u16) -> Option<(u16, &[u8])>
    ensures begins { IfSome result (λ found. text.now ≡ mark_text JsonForm found.0 ++ found.1.now) }
    ensures few { IfSome result (λ found. found.0 < count) }
{
    let (number, tail) = number(behind_all(text, b"{\"alt\":")?)?;
    if number >= u64::from(count) {
        return None;
    }
    Some((number as u16, behind_all(tail, b",\"tree\":")?))
}

/// The number of an alternative, one of so many, and the text of its tree.
#[inline(always)]
pub(crate) fn alternative(form: TreeForm, text: &[u8], count: u16) -> Option<(u16, &[u8])>
    ensures begins { IfSome result (λ found. text.now ≡ mark_text form found.0 ++ found.1.now) }
    ensures few { IfSome result (λ found. found.0 < count) }
{
    match form {
        TreeForm::Text => text_alternative(text, count),
        TreeForm::Json => json_alternative(text, count),
    }
}

/// The text of the tree of a labelled part as a text has it, where its label has these bytes.
fn behind_text_label<'a>(text: &'a [u8], label: &[u8]) -> Option<&'a [u8]>
    ensures { IfSome result (λ rest. text.now ≡ label_text TextForm label.now ++ rest.now) }
{
    let tail = behind_all(behind(text, b'<')?, label)?;
    behind(behind(tail, b'>')?, b'=')
}

/// The same as JSON has it.
fn behind_json_label<'a>(text: &'a [u8], label: &[u8]) -> Option<&'a [u8]>
    ensures { IfSome result (λ rest. text.now ≡ label_text JsonForm label.now ++ rest.now) }
{
    let tail = behind_all(behind_all(text, b"{\"label\":\"")?, label)?;
    behind_all(tail, b"\",\"tree\":")
}

/// The text of the tree of a labelled part, where its label has these bytes.
#[inline(always)]
pub(crate) fn behind_label<'a>(form: TreeForm, text: &'a [u8], label: &[u8]) -> Option<&'a [u8]>
    ensures { IfSome result (λ rest. text.now ≡ label_text form label.now ++ rest.now) }
{
    match form {
        TreeForm::Text => behind_text_label(text, label),
        TreeForm::Json => behind_json_label(text, label),
    }
}

/// The text behind what ends an alternative or a labelled part.
#[inline(always)]
pub(crate) fn behind_closing(form: TreeForm, text: &[u8]) -> Option<&[u8]>
    ensures { IfSome result (λ rest. text.now ≡ closing form ++ rest.now) }
{
    match form {
        TreeForm::Text => Some(text),
        TreeForm::Json => behind(text, b'}'),
    }
}

/// The bits of a leaf, as a tree, and the text behind it.
pub(crate) fn leaf(form: TreeForm, alloc: Global, text: &[u8]) -> Option<(Tree, &[u8])>
    ensures { IfSome result (λ found. text.now ≡ text_in form found.0 ++ found.1.now) }
{
    match form {
        TreeForm::Text => text_leaf(alloc, text),
        TreeForm::Json => json_leaf(alloc, text),
    }
}

/// The tree whose text ends before the first space or `]`, and the text behind it.
fn text_leaf(alloc: Global, text: &[u8]) -> Option<(Tree, &[u8])>
    ensures { IfSome result (λ found. text.now ≡ text_in TextForm found.0 ++ found.1.now) }
{
    let end = leaf_end(text);
    if end > MOST_LINE as usize {
        return None;
    }
    match read_tree(alloc, &text[..end]) {
        Ok(tree) => Some((tree, &text[end..])),
        Err(_) => None,
    }
}

// Where the first space or `]` of a text stands, or where it ends.
fn leaf_end(text: &[u8]) -> usize
    ensures { result ≤ length text.now }
{
    match memchr2(b' ', b']', text) {
        Some(end) => end,
        None => text.len(),
    }
}

/// The bits whose block line is between quotes, and the text behind these.
fn json_leaf(alloc: Global, text: &[u8]) -> Option<(Tree, &[u8])>
    ensures { IfSome result (λ found. text.now ≡ text_in JsonForm found.0 ++ found.1.now) }
{
    csn_json::laws::texts_are_joined();
    let (line, rest) = before_quote(behind(text, b'"')?)?;
    let bits = bits_of_line(alloc, line)?;
    let tree = Tree {
        shape: Shape::Bits(bits),
    };
    Some((tree, rest))
}

// The text before the first quote, and that behind it.
fn before_quote(text: &[u8]) -> Option<(&[u8], &[u8])>
    ensures { IfSome result (λ found. text.now ≡ found.0.now ++ 34 ∷ found.1.now) }
{
    let at = memchr(b'"', text)?;
    Some((&text[..at], behind(&text[at..], b'"')?))
}

// The bits that a block line spells as it is written.
fn bits_of_line(alloc: Global, line: &[u8]) -> Option<Bits>
    ensures { IfSome result (λ bits. IsBits bits × (line.now ≡ written bits)) }
{
    if line.len() > MOST_LINE as usize || !is_upper(line) {
        return None;
    }
    Bits::from_hex_line(alloc, line).ok()
}

// Whether a line has no digit in lower case.
fn is_upper(line: &[u8]) -> bool
    ensures { IsTrue result ↔ (map upper line.now ≡ line.now) }
{
    !line.iter().any(|byte| matches!(byte, b'a'..=b'f'))
}
