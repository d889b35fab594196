// The line that has not ended yet, as much of it as is held.
ghost use Rattle.std.specs.Prelude.{◌≡◌, ◌↔◌, ◌++◌, ◌≤◌, List, ℕ, [], length, take, IsTrue};
ghost use Rattle.reporting.specs.Run.{held_most};

use crate::HELD;
use std::marker::Model;

// The bytes that are held, and how many they are, in fixed memory and by std alone.
#[derive(Drop)]
pub struct Held {
    bytes: [u8; HELD],
    length: usize,
}

// Clauses see the bytes that are held.
impl Model for Held {
    ghost Value = { List ℕ };

    ghost view = { λ h. take h.length h.bytes };

    ghost invariant = { λ h. h.length ≤ held_most };
}

impl Held {
    // As many of the bytes are held as there are.
    pub fn of(bytes: [u8; HELD], length: usize) -> Held
        ensures { result ≡ take length bytes }
    {
        Held {
            bytes,
            length: length.min(HELD),
        }
    }

    // A buffer in whose front stands what is held, and how many bytes that are.
    pub fn parts(self) -> ([u8; HELD], usize)
        ensures { take result.1 result.0 ≡ self }
    {
        let Held { bytes, length } = self;
        (bytes, length)
    }

    // Is nothing held?
    pub fn is_empty(&self) -> bool
        ensures nothing { IsTrue result ↔ (self.now ≡ []) }
        ensures short { length self.now ≤ held_most }
    {
        self.length == 0
    }

    // What is held.
    pub fn as_slice(&self) -> &[u8]
        ensures { result.now ≡ self.now }
    {
        &self.bytes[..self.length]
    }

    // Holds more of the line, as far as a line is held.
    pub fn hold(&mut self, more: &[u8])
        ensures held { self.new ≡ take held_most (self.old ++ more.now) }
        ensures short { length self.old ≤ held_most }
    {
        let n = more.len().min(HELD - self.length);
        let end = self.length + n;
        self.bytes[self.length..end].copy_from_slice(&more[..n]);
        self.length = end;
    }

    // Holds nothing any more: the line has ended.
    pub fn clear(&mut self)
        ensures { self.new ≡ [] }
    {
        self.length = 0;
    }
}
