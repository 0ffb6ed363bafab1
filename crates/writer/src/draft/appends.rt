// Making a draft, asking it, and appending bytes to it. Each append asks `Room` for the bytes that it writes: no ghost field of the draft says it, since it
// speaks of what is written next as much as of the draft.
ghost use Rattle.std.specs.Prelude.{◌≡◌, ◌-◌, [], ◌∷◌, length, IfOk};
ghost use Rattle.writer.specs.Drafts.{Adds, Room, count, limit_of, written};

use super::Draft;
use std::alloc::{AllocError, Global};

impl Draft {
    // An empty draft of at most `limit` bytes.
    pub fn new(heap: Global, limit: usize) -> Result<Draft, AllocError>
        ensures { IfOk result (λ d. (written d ≡ []) × (count d ≡ 0) × (limit_of d ≡ limit)) }
    {
        let bytes = Vec::with_capacity(heap, limit)?;
        Ok(Draft { bytes, limit })
    }

    // No bytes again, in the same memory.
    pub fn clear(&mut self)
        ensures bytes { written self.new ≡ [] }
        ensures count { count self.new ≡ 0 }
        ensures limit { limit_of self.new ≡ limit_of self.old }
    {
        self.bytes.clear();
    }

    // How many bytes are written.
    pub fn len(&self) -> usize
        ensures { result ≡ count self.now }
    {
        self.bytes.len()
    }

    // For how many more bytes there is room.
    pub fn left(&self) -> usize
        ensures { result ≡ limit_of self.now - count self.now }
    {
        self.limit - self.bytes.len()
    }

    // The bytes written.
    pub fn as_slice(&self) -> &[u8]
        ensures value { result.now ≡ written self.now }
        ensures len { length result.now ≡ count self.now }
    {
        self.bytes.as_slice()
    }

    // One byte more.
    pub fn byte(&mut self, one: u8)
        requires { Room self.old 1 }
        ensures { Adds self.old (one ∷ []) self.new }
    {
        self.bytes.push_reserved(one);
    }

    // Some bytes more. There is room, so that this cannot fail.
    pub fn text(&mut self, more: &[u8])
        requires { Room self.old (length more.now) }
        ensures { Adds self.old more.now self.new }
    {
        let _ = self.bytes.extend_from_slice(more);
    }
}
