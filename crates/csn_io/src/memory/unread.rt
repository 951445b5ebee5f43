ghost use Rattle.std.specs.Prelude.{◌≡◌, ◌↔◌, [], ◌++◌, length, min, take, IsTrue};

use std::marker::Model;

/// Bytes of which those at the front were read. A contract sees the list of those that are left.
#[derive(Drop)]
pub struct Unread {
    bytes: Vec<u8>,
    at: usize,
}

impl Model for Unread {
    ghost use Rattle.std.specs.Prelude.{List, ℕ, ◌≤◌, drop, length};

    ghost Value = { List ℕ };

    ghost view = { λ u. drop u.at u.bytes.items };

    ghost invariant = { λ u. u.at ≤ length u.bytes.items };
}

impl Unread {
    pub fn new(bytes: Vec<u8>) -> Unread
        ensures { result ≡ bytes.items }
    {
        Unread { bytes, at: 0 }
    }

    pub fn is_empty(&self) -> bool
        ensures { IsTrue result ↔ (self.now ≡ []) }
    {
        self.at == self.bytes.len()
    }

    /// Moves the next bytes to the front of `into`, and tells how many: all that are left, unless
    /// the room or `most` is less.
    pub fn read(&mut self, into: &mut [u8], most: usize) -> usize
        ensures count { result ≡ min (length self.old) (min (length into.new) most) }
        ensures moved { self.old ≡ take result into.new ++ self.new }
    {
        let left = self.bytes.len() - self.at;
        let count = left.min(into.len().min(most));
        let end = self.at + count;
        into[..count].copy_from_slice(&self.bytes[self.at..end]);
        self.at = end;
        count
    }
}
