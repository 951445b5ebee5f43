//! Labels.

ghost use Rattle.std.specs.Prelude.{◌≡◌, ◌<◌, ◌≤◌, ◌-◌, ◌∷◌, [], List, length, slice_index, take, drop, None, IfOk, OnOk};
ghost use Rattle.csn_desc.specs.Label.{IsLabel};
ghost use Rattle.csn_treetext.specs.declared.stack.Frame.{Frame};
ghost use Rattle.csn_treetext.specs.declared.version.Version.{Version};
ghost use Rattle.csn_treetext.specs.reader.Machine.{HasRoom, may_end, name_after, state};
ghost use Rattle.csn_treetext.specs.reader.Mode.{Name};
ghost use Rattle.csn_treetext.specs.reader.Reading.{Comes, Takes};

use crate::decimals::stands_at;
use crate::next::{Next, Taken};
use crate::source::Source;
use crate::stack::{Frame, Stack};
use csn_bits::NoMemory;
use csn_desc::{Label, LabelFault};
use std::alloc::Global;

/// Where in a label one stands.
#[derive(Clone, Copy, Drop)]
pub enum NameAt {
    /// At the front of a word.
    Front,
    /// Behind a byte that may end a word.
    Within,
    /// Behind `/` or `-`, which a letter or a digit follows.
    Joint,
}

impl NameAt {
    /// Whether a label may end here.
    fn may_end(self) -> bool
        ensures { result ≡ may_end self }
    {
        match self {
            NameAt::Within => true,
            NameAt::Front | NameAt::Joint => false,
        }
    }

    // Where a label stands after one byte more.
    fn after(self, byte: u8) -> Option<NameAt>
        ensures { result ≡ name_after self byte }
    {
        match (self, byte) {
            (NameAt::Within, b' ') => Some(NameAt::Front),
            (NameAt::Within, b'/' | b'-') => Some(NameAt::Joint),
            (NameAt::Within, b'_' | b'\'' | b'.' | b',') => Some(NameAt::Within),
            (NameAt::Front, b'_') => Some(NameAt::Within),
            _ if byte.is_ascii_alphanumeric() => Some(NameAt::Within),
            _ => None,
        }
    }
}

// Where a label that begins at a place goes on no further, and where in it one stands there.
fn name_end(text: &[u8], from: usize) -> (NameAt, usize)
    requires { from ≤ length text.now }
    ensures comes { (version : Version) (stack : List Frame) → Comes version text.now from (state (Name [] NameAt.Front) stack)
        → Comes version text.now result.1 (state (Name (take (result.1 - from) (drop from text.now)) result.0) stack) }
    ensures stops { result.1 < length text.now → name_after result.0 (slice_index text.now result.1) ≡ None }
    ensures from { from ≤ result.1 }
    ensures within { result.1 ≤ length text.now }
{
    let mut stands = NameAt::Front;
    let mut at = from;
    while at < text.len() {
        match stands.after(text[at]) {
            Some(next) => stands = next,
            None => return (stands, at),
        }
        at += 1;
    }
    (stands, at)
}

// The label of these bytes.
fn new_label(alloc: Global, words: &[u8]) -> Result<Label, NoMemory>
    requires { IsLabel words.now }
    ensures { IfOk result (λ label. label ≡ words.now) }
{
    match Label::new(alloc, words) {
        Ok(label) => Ok(label),
        Err(LabelFault::NoMemory) => Err(NoMemory),
        Err(LabelFault::BadLabel) => unreachable!(),
    }
}

// Begins a labelled part with the label of these bytes.
fn push_label(alloc: Global, stack: &mut Stack, words: &[u8]) -> Result<(), NoMemory>
    requires { IsLabel words.now }
    ensures { OnOk result (stack.new ≡ Frame.Named words.now ∷ stack.old) }
{
    let label = new_label(alloc, words)?;
    stack.push(Frame::Named(label))
}

/// Behind `<`: a label, `>` and `=`.
pub fn name(source: Source, stack: &mut Stack, from: usize) -> Result<Taken, NoMemory>
    requires within { from ≤ length source.text.now }
    requires room { HasRoom stack.old }
    requires comes { Comes source.version source.text.now from (state (Name [] NameAt.Front) stack.old) }
    ensures { IfOk result (Takes source.entry.version source.entry.text.now from stack.new) }
{
    let text = source.text;
    let (stands, end) = name_end(text, from);
    if !stands.may_end() || !stands_at(text, end, b'>') {
        return Ok(Taken::Refused(end));
    }
    if !stands_at(text, end + 1, b'=') {
        return Ok(Taken::Refused(end + 1));
    }
    push_label(source.alloc, stack, &text[from..end])?;
    Ok(Taken::Up(Next::Start, end + 2))
}
