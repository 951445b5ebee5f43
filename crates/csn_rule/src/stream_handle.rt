//! The handle by which a program in another language holds a block that comes in pieces.

ghost use Rattle.std.specs.Prelude.{◌≡◌, Option, None, Some, MatchOption};
ghost use Rattle.csn_rule.specs.Streams.{StreamV};

use crate::stream::Stream;
use csn_loose::Loose;
use std::alloc::Global;
use std::boxed::Box;
use std::marker::Model;
use std::mem;
use std::ptr::null_mut;

/// A boxed stream, or none. To C it is a struct of one pointer, which is null where there is none.
#[repr(C)]
pub struct StreamHandle {
    at: *mut u8,
    pub ghost held: { Option StreamV },
}

impl Model for StreamHandle {
    ghost use Rattle.csn_rule.specs.StreamHandles.{stream_owns};

    ghost also_owns = { λ h. stream_owns h.at h.held };
}

impl StreamHandle {
    /// No stream.
    pub fn empty() -> StreamHandle
        ensures { result.held ≡ None }
    {
        StreamHandle { at: null_mut() }
    }

    /// The stream behind a pointer that C may hold.
    fn hide(loose: Loose<Stream, Global>) -> StreamHandle
        ensures { result.held ≡ Some loose.value }
    {
        let Loose { ptr, alloc: _ } = loose;
        StreamHandle { at: ptr as *mut u8 }
    }

    /// The stream again.
    fn reveal(self, alloc: Global) -> Option<Loose<Stream, Global>>
        ensures { MatchOption result (self.held ≡ None) (λ l. self.held ≡ Some l.value) }
    {
        let StreamHandle { at } = self;
        if at.is_null() {
            None
        } else {
            Some(Loose {
                ptr: at as *mut Stream,
                alloc,
            })
        }
    }

    /// The stream, and no longer the handle.
    pub fn into_stream(self, alloc: Global) -> Option<Box<Stream>>
        ensures { MatchOption result (self.held ≡ None) (λ b. self.held ≡ Some b.value) }
    {
        match self.reveal(alloc) {
            None => None,
            Some(loose) => Some(loose.into_box()),
        }
    }

    /// Takes the stream, and leaves none.
    pub fn take(&mut self, alloc: Global) -> Option<Box<Stream>>
        ensures taken { MatchOption result (self.old.held ≡ None) (λ b. self.old.held ≡ Some b.value) }
        ensures left { self.new.held ≡ None }
    {
        mem::replace(self, StreamHandle::empty()).into_stream(alloc)
    }

    /// Puts a stream, and frees the one before.
    pub fn put(&mut self, alloc: Global, stream: Box<Stream>)
        ensures { self.new.held ≡ Some stream.value }
    {
        let before = mem::replace(self, StreamHandle::hide(Loose::of(stream)));
        match before.into_stream(alloc) {
            None => {}
            Some(held) => drop(held),
        }
    }
}
