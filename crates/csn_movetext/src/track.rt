ghost use Rattle.std.specs.Prelude.{◌≤◌, ◌++◌, OnOk};
ghost use Rattle.csn_bits.specs.Numbers.{low_bits};
ghost use Rattle.csn_json.specs.Forms.{label_text};
ghost use Rattle.csn_movetext.specs.Kept.{Extends, kept_of};
ghost use Rattle.csn_movetext.specs.Openings.{opening_in};
ghost use Rattle.csn_movetext.specs.Track.{Enters, Moves, TookAll};

use crate::laws::moves_write_their_tree;
use crate::openings::{Openings, push_label};
use crate::writing::Writing;
use csn_bits::NoMemory;
use csn_certify::{Layout, Plan};
use csn_desc::{Label, Move, Node};
use csn_json::TreeForm;
use csn_judge::Track;
use std::marker::Model;

/// Writes a tree along the moves of its block, while there is memory.
#[derive(Drop)]
pub(crate) struct TextTrack<'a> {
    openings: &'a Openings,
    writing: Writing,
    refused: bool,
}

impl<'a> Model for TextTrack<'a> {
    ghost use Rattle.std.specs.Prelude.{[]};
    ghost use Rattle.csn_movetext.specs.Kept.{kept_of};
    ghost use Rattle.csn_movetext.specs.Track.{TrackV};

    ghost Value = { TrackV };

    ghost view = { λ t. record { openings = t.openings.now; kept = kept_of t.writing; refused = t.refused; pending = [] } };
}

impl<'a> TextTrack<'a> {
    ghost use Rattle.std.specs.Prelude.{◌≡◌, ◌<◌, ◌≤◌, [], ◌++◌, take, length, OnOk, OnErr};
    ghost use Rattle.csn_bits.specs.Numbers.{low_bits};
    ghost use Rattle.csn_judge.specs.Told.{BitsTold};
    ghost use Rattle.csn_movetext.specs.Blocks.{nothing};
    ghost use Rattle.csn_movetext.specs.Track.{Writes};

    /// Nothing of a tree, behind these bytes.
    pub fn new(openings: &'a Openings, out: Vec<u8>) -> TextTrack<'a>
        ensures { result ≡ nothing openings.now out.items }
    {
        TextTrack {
            openings,
            writing: Writing::new(out),
            refused: false,
        }
    }

    /// Nothing of a tree again, behind the first of the bytes.
    pub fn restart(&mut self, start: usize)
        ensures { self.new ≡ nothing self.old.openings (take start self.old.kept.text) }
    {
        self.writing.restart(start);
        self.refused = false;
    }

    /// Whether memory was refused.
    pub fn is_refused(&self) -> bool
        ensures { result ≡ self.now.refused }
    {
        self.refused
    }

    /// The bytes so far.
    pub fn bytes(&self) -> &[u8]
        ensures { result.now ≡ self.now.kept.text }
    {
        self.writing.out.as_slice()
    }

    /// The bytes.
    pub fn finish(self) -> Vec<u8>
        ensures { result.items ≡ self.entry.kept.text }
    {
        self.writing.out
    }
}

impl<'a> Track for TextTrack<'a> {
    ghost use Rattle.csn_movetext.specs.Openings.{HasOpenings};
    ghost use Rattle.csn_movetext.specs.Track.{Writes};
    ghost use Rattle.std.proofs.Common.{subst, sym};

    ghost takes = { Writes };

    ghost fits = { λ track desc. HasOpenings desc track.openings };

    ghost keeps = { λ d old new step node writes has. subst (HasOpenings d) (sym writes.same_openings) has };

    #[inline(always)]
    fn step(&mut self, step: Move, node: &Node) {
        if self.refused {
            return;
        }
        self.refused = write_move(&mut self.writing, self.openings, step, node).is_err();
    }

    fn bits(&mut self, number: u64, count: u32, node: &Node) {
        if self.refused {
            return;
        }
        if count > 0 {
            let form = self.openings.form();
            self.refused = take_bits(&mut self.writing, form, number, count, node).is_err();
        }
    }

    #[inline(always)]
    fn takes_whole(&self) -> bool {
        matches!(self.openings.form(), TreeForm::Text)
    }

    #[inline(always)]
    fn whole(&mut self, _plan: &Plan, _i: u16, _layout: Layout, _number: u64) -> bool {
        if self.refused || self.writing.is_open() {
            return false;
        }
        moves_write_their_tree();
        match self.openings.template(_i) {
            Some(template) => {
                self.refused = self.writing.whole(template, _number).is_err();
                true
            }
            None => false,
        }
    }
}

// One move, with the node that begins, that takes the bit, or that ends.
#[inline(always)]
fn write_move(
    writing: &mut Writing,
    openings: &Openings,
    step: Move,
    node: &Node,
) -> Result<(), NoMemory>
    ensures moves { OnOk result (Moves openings.now step node.now (kept_of writing.old) (kept_of writing.new)) }
    ensures extends { Extends writing.old.out.items writing.new.out.items }
{
    let form = openings.form();
    match step {
        Move::Enter(number) => enter(writing, openings, number),
        Move::Bit(bit) if bit > 1 => Err(NoMemory),
        Move::Bit(bit) => take_bits(writing, form, u64::from(bit), 1, node),
        Move::Leave => writing.leave(form, node),
    }
}

// Node `i` begins.
#[inline(always)]
fn enter(writing: &mut Writing, openings: &Openings, i: u16) -> Result<(), NoMemory>
    ensures entered { OnOk result (Enters openings.now.form (opening_in openings.now i) (kept_of writing.old) (kept_of writing.new)) }
    ensures extends { Extends writing.old.out.items writing.new.out.items }
{
    let form = openings.form();
    let opening = openings.get(i);
    match opening.label {
        None => writing.enter(form, opening.text),
        Some(label) => enter_labelled(writing, form, opening.text, label),
    }
}

// A node begins whose opening is a text and a label behind it.
#[cold]
#[inline(never)]
fn enter_labelled(
    writing: &mut Writing,
    form: TreeForm,
    text: &[u8],
    label: &Label,
) -> Result<(), NoMemory>
    ensures entered { OnOk result (Enters form (text.now ++ label_text form label.now) (kept_of writing.old) (kept_of writing.new)) }
    ensures extends { Extends writing.old.out.items writing.new.out.items }
{
    writing.enter(form, text)?;
    push_label(&mut writing.out, form, label)
}

// The innermost node takes the last `count` bits of a number. Those of a literal are in no text.
fn take_bits(
    writing: &mut Writing,
    form: TreeForm,
    number: u64,
    count: u32,
    node: &Node,
) -> Result<(), NoMemory>
    requires few { count ≤ 56 }
    ensures took { OnOk result (TookAll form node.now (low_bits count number) (kept_of writing.old) (kept_of writing.new)) }
    ensures extends { Extends writing.old.out.items writing.new.out.items }
{
    match node {
        Node::Lits(_) => Ok(()),
        _ => writing.take(form, number, count),
    }
}
