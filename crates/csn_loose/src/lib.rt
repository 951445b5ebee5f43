//! A box taken apart into its pointer and its allocator, and put together again: what a program in another language can
//! hold of it.
#![tactic(auto)]

ghost use Rattle.std.specs.Prelude.{◌≡◌};
ghost use Rattle.std.specs.Box.Ownership.{box_owns};

use std::alloc::Allocator;
use std::marker::Model;

/// A boxed value as the pointer and the allocator that the box is made of. It owns what the box owned: the value, and the
/// right to free its memory.
pub struct Loose<T, A: Allocator> {
    pub ptr: *mut T,
    pub alloc: A,
    pub ghost value: { T },
}

impl<T, A: Allocator> Model for Loose<T, A> {
    ghost also_owns = { λ p. box_owns (A.dealloc_token p.alloc) T.row p.ptr p.value };
}

impl<T, A: Allocator> Loose<T, A> {
    /// Takes a box apart.
    pub fn of(b: Box<T, A>) -> Loose<T, A>
    where
        T: Drop,
        ensures { result.value ≡ b.value }
    {
        let (ptr, alloc) = Box::into_raw_with_allocator(b);
        Loose { ptr, alloc }
    }

    /// Puts the box together again.
    pub fn into_box(self) -> Box<T, A>
        ensures { result.value ≡ self.value }
    {
        let Loose { ptr, alloc } = self;
        unsafe { Box::from_raw(alloc, ptr) }
    }
}
