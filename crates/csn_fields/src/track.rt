use crate::alternatives::Alternatives;
use crate::event::Events;
use crate::places::Places;
use csn_certify::{Layout, Plan};
use csn_desc::{Move, Node};
use csn_judge::Track;

/// Tells the events of a block along its moves.
#[derive(Drop)]
pub struct FieldTrack<'a, E> {
    pub places: Places<'a>,
    /// What is told them.
    pub events: E,
}

impl<'a, E: Events> Track for FieldTrack<'a, E> {
    ghost use Rattle.std.specs.Prelude.{⊤};
    ghost use Rattle.csn_fields.specs.Tracks.{Takes};

    ghost takes = { λ old move node new. Takes E.tells old.places old.events move node new.places new.events };

    ghost fits = { λ _ _. ⊤ };

    ghost keeps = { λ _ _ _ _ _ _ _. tt };

    #[inline(always)]
    fn step(&mut self, step: Move, node: &Node) {
        if let Some(event) = self.places.step(step, node) {
            self.events.event(event);
        }
    }

    #[inline(always)]
    fn bits(&mut self, number: u64, count: u32, _node: &Node) {
        self.places.take(number, count);
    }
}

/// The same, where all moves of a node that has an outline are told at once.
#[derive(Drop)]
pub struct WholeTrack<'a, E> {
    pub alternatives: &'a Alternatives,
    pub fields: FieldTrack<'a, E>,
}

impl<'a, E: Events> Track for WholeTrack<'a, E> {
    ghost use Rattle.std.specs.Prelude.{◌≡◌};
    ghost use Rattle.std.proofs.Common.{subst, sym};
    ghost use Rattle.csn_fields.specs.Outlines.{AreOutlines};
    ghost use Rattle.csn_fields.specs.Tracks.{Takes};

    ghost takes = { λ old move node new.
        Takes E.tells old.fields.places old.fields.events move node new.fields.places new.fields.events
        × (new.alternatives.now ≡ old.alternatives.now) };

    ghost fits = { λ track desc. AreOutlines desc track.alternatives.now.outlines };

    ghost keeps = { λ d old new step node takes fits. subst (λ a. AreOutlines d a.outlines) (sym takes.1) fits };

    #[inline(always)]
    fn step(&mut self, step: Move, node: &Node) {
        self.fields.step(step, node);
    }

    #[inline(always)]
    fn bits(&mut self, number: u64, count: u32, node: &Node) {
        self.fields.bits(number, count, node);
    }

    #[inline(always)]
    fn takes_whole(&self) -> bool {
        true
    }

    #[inline(always)]
    fn whole(&mut self, _plan: &Plan, _i: u16, _layout: Layout, _number: u64) -> bool {
        let Some(outline) = self.alternatives.outline(_i) else {
            return false;
        };
        if !self.fields.places.has_room(outline.len(), _layout.width) {
            return false;
        }
        let role = self.fields.places.pass(_i, _layout.width);
        let end = self.fields.places.place();
        outline.tell(role, end, _number, &mut self.fields.events);
        true
    }
}
