ghost use Rattle.std.specs.Prelude.{◌≡◌, ◌<◌, OnOk, vec_len, vec_capacity};

use crate::buffer::copy_into;
use crate::event::FlatEvent;
use csn_fields::{Event, Events};
use std::alloc::AllocError;
use std::marker::Model;

/// How many events there is room for from the first block on, where there is memory.
const FIRST_ROOM: usize = 256;

/// The events of a block in a list, while there is memory. A contract sees the list, and whether memory was wanting.
#[derive(Drop)]
pub(crate) struct EventList {
    events: Vec<FlatEvent>,
    short: bool,
}

impl Model for EventList {
    ghost use Rattle.csn_rule.specs.FlatEvents.{EventsV};

    ghost Value = { EventsV };

    ghost view = { λ l. record { events = l.events.items; short = l.short } };
}

impl EventList {
    ghost use Rattle.std.specs.Prelude.{◌≡◌, [], false};
    ghost use Rattle.csn_rule.specs.FlatEvents.{AddsEvent, Copies};

    /// No events, in the memory of these.
    pub(crate) fn new(mut events: Vec<FlatEvent>) -> EventList
        ensures { result ≡ record { events = []; short = false } }
    {
        events.clear();
        // where it is refused, each event asks again
        let _room = events.reserve(FIRST_ROOM);
        EventList {
            events,
            short: false,
        }
    }

    /// Copies the events, as far as there is room, and counts them; unless memory was wanting.
    pub(crate) fn copy_into(&self, out: &mut [FlatEvent]) -> Option<usize>
        ensures { Copies self.now out.old out.new result }
    {
        if self.short {
            return None;
        }
        let events = self.events.as_slice();
        copy_into(events, out);
        Some(events.len())
    }

    /// The memory.
    pub(crate) fn into_memory(self) -> Vec<FlatEvent> {
        self.events
    }

    /// One event more, while there is memory. Only the memory is handed on where it is full, and not the event, which so goes
    /// from registers to its place.
    #[inline(always)]
    fn add(&mut self, event: FlatEvent)
        ensures { AddsEvent event self.old self.new }
    {
        if self.short {
            return;
        }
        match room_for_one(&mut self.events) {
            Ok(()) => self.events.push_reserved(event),
            Err(AllocError) => self.short = true,
        }
    }
}

/// Room for one event more.
#[inline(always)]
fn room_for_one(events: &mut Vec<FlatEvent>) -> Result<(), AllocError>
    ensures room { OnOk result (vec_len events.new < vec_capacity events.new) }
    ensures items { events.new.items ≡ events.old.items }
{
    if events.len() < events.capacity() {
        return Ok(());
    }
    grow(events)
}

/// The same where the memory is full. It stands apart, so that events that have room are told in fewer steps.
#[cold]
#[inline(never)]
fn grow(events: &mut Vec<FlatEvent>) -> Result<(), AllocError>
    ensures room { OnOk result (vec_len events.new < vec_capacity events.new) }
    ensures items { events.new.items ≡ events.old.items }
{
    events.reserve(1)
}

impl Events for EventList {
    ghost use Rattle.csn_rule.specs.FlatEvents.{Lists};

    ghost tells = { Lists };

    #[inline(always)]
    fn event(&mut self, event: Event) {
        self.add(FlatEvent::of(event));
    }
}
