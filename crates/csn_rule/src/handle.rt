//! The handle by which a program in another language holds a rule.

ghost use Rattle.std.specs.Prelude.{◌≡◌, Option, None, Some, MatchOption};
ghost use Rattle.csn_desc.specs.Nodes.{DescV};

use crate::rule::Rule;
use csn_loose::Loose;
use std::alloc::Global;
use std::boxed::Box;
use std::marker::Model;
use std::mem;
use std::ptr::null_mut;

/// A boxed rule, or none. To C it is a struct of one pointer, which is null where there is none.
#[repr(C)]
pub struct Handle {
    at: *mut u8,
    pub ghost held: { Option DescV },
}

// What it owns does not tell on which thread it was made.
unsafe impl Send for Handle {}

impl Model for Handle {
    ghost use Rattle.csn_rule.specs.Handles.{handle_owns};

    ghost also_owns = { λ h. handle_owns h.at h.held };
}

impl Handle {
    /// No rule.
    pub fn empty() -> Handle
        ensures { result.held ≡ None }
    {
        Handle { at: null_mut() }
    }

    /// The rule behind a pointer that C may hold.
    fn hide(loose: Loose<Rule, Global>) -> Handle
        ensures { result.held ≡ Some loose.value }
    {
        let Loose { ptr, alloc: _ } = loose;
        Handle { at: ptr as *mut u8 }
    }

    /// The rule again.
    fn reveal(self, alloc: Global) -> Option<Loose<Rule, Global>>
        ensures { MatchOption result (self.held ≡ None) (λ l. self.held ≡ Some l.value) }
    {
        let Handle { at } = self;
        if at.is_null() {
            None
        } else {
            Some(Loose {
                ptr: at as *mut Rule,
                alloc,
            })
        }
    }

    /// The rule, and no longer the handle.
    pub fn into_rule(self, alloc: Global) -> Option<Box<Rule>>
        ensures { MatchOption result (self.held ≡ None) (λ b. self.held ≡ Some b.value) }
    {
        match self.reveal(alloc) {
            None => None,
            Some(loose) => Some(loose.into_box()),
        }
    }

    /// Takes the rule, and leaves none.
    pub fn take(&mut self, alloc: Global) -> Option<Box<Rule>>
        ensures taken { MatchOption result (self.old.held ≡ None) (λ b. self.old.held ≡ Some b.value) }
        ensures left { self.new.held ≡ None }
    {
        mem::replace(self, Handle::empty()).into_rule(alloc)
    }

    /// Puts a rule, and frees the one before.
    pub fn put(&mut self, alloc: Global, rule: Box<Rule>)
        ensures { self.new.held ≡ Some rule.value }
    {
        let before = mem::replace(self, Handle::hide(Loose::of(rule)));
        match before.into_rule(alloc) {
            None => {}
            Some(held) => drop(held),
        }
    }
}
