// Making an open update, asking it, and changing it.
ghost use Rattle.std.specs.Prelude.{◌≡◌, ◌<◌, ◌≤◌, true, [], length, insert, is_some, IfSome, IfOk, None};
ghost use Rattle.std.specs.Option.{option_map};
ghost use Rattle.entries.specs.Cells.{part};
ghost use Rattle.entries.specs.Reserving.{items_of};
ghost use Rattle.format.specs.Book.{has_room, most_changes};
ghost use Rattle.format.specs.Revisions.{find};
ghost use Rattle.format.specs.Updates.{body, body_bytes, new_numbers, removed, with_change};
ghost use Rattle.writer.specs.Changes.{content_in, place_for};
ghost use Rattle.writer.specs.Helds.{Kept, pool_of, update_of};

use super::{Held, MOST_BODY_BYTES, MOST_CHANGES};
use crate::change::{Change, Content, change_of, count_new, place_for};
use entries::reserved::Reserved;
use std::alloc::{AllocError, Global};

// Inserts a change in front of those of greater numbers. No method of `Held`: behind a body's bytes and before their change, `all` does not hold.
fn insert_change(changes: &mut Reserved<Change, MOST_CHANGES>, one: Change)
    requires { length (items_of changes.old) < most_changes }
    ensures { items_of changes.new ≡ insert (items_of changes.old) (place_for one.number (items_of changes.old)) one }
{
    let place = place_for(changes.as_slice(), one.number);
    changes.insert(place, one);
}

impl Held {
    // No changes, with room for all that an update may have.
    pub fn new(heap: Global) -> Result<Held, AllocError>
        ensures { IfOk result (λ h. update_of h ≡ []) }
    {
        let changes = Reserved::new(heap)?;
        let bodies = Reserved::new(heap)?;
        Ok(Held { changes, bodies })
    }

    // No changes again, in the same memory.
    pub fn clear(&mut self)
        ensures { update_of self.new ≡ [] }
    {
        self.changes.clear();
        self.bodies.clear();
    }

    // How many changes there are.
    pub fn len(&self) -> usize
        ensures { result ≡ length (update_of self.now) }
    {
        self.changes.len()
    }

    // How many bytes the bodies have.
    pub fn body_bytes(&self) -> usize
        ensures { result ≡ body_bytes (update_of self.now) }
    {
        self.bodies.len()
    }

    // How many numbers are new: they lie from Size on.
    pub fn new_numbers(&self, size: usize) -> usize
        ensures is { result ≡ new_numbers size (update_of self.now) }
        ensures few { result ≤ most_changes }
    {
        count_new(self.changes.as_slice(), size)
    }

    // The change of a number, if it has one.
    pub fn find(&self, n: usize) -> Option<Content>
        ensures is { option_map (content_in (pool_of self.now)) result ≡ find n (update_of self.now) }
        ensures kept { IfSome result (λ c. Kept self.now c) }
    {
        change_of(self.changes.as_slice(), n)
    }

    // Whether a number has a change.
    pub fn has(&self, n: usize) -> bool
        ensures { result ≡ is_some (find n (update_of self.now)) }
    {
        self.find(n).is_some()
    }

    // Whether there is room for one more change with a body of that length.
    pub fn has_room(&self, len: usize) -> bool
        ensures { result ≡ has_room (update_of self.now) len }
    {
        self.len() < MOST_CHANGES && len <= MOST_BODY_BYTES - self.body_bytes()
    }

    // The bytes of a body from its start to its end, as a change gives them. That they lie among the bodies is asked (`Kept`), and no type says it: a
    // `Content` is the places alone, and holds no update.
    pub fn body(&self, start: usize, end: usize) -> &[u8]
        requires { Kept self.now (Content.Body start end) }
        ensures { result.now ≡ part (pool_of self.now) start end }
    {
        &self.bodies.as_slice()[start..end]
    }

    // Puts a body, where the number has no change yet and there is room, so that neither list asks for memory.
    #[tactic(auto, using(crate::proofs::Changes::room))]
    pub fn put(&mut self, n: usize, bytes: &[u8])
        requires free { find n (update_of self.old) ≡ None }
        requires room { has_room (update_of self.old) (length bytes.now) ≡ true }
        ensures { update_of self.new ≡ with_change n (body bytes.now) (update_of self.old) }
    {
        let start = self.body_bytes();
        let end = start + bytes.len();
        let content = Content::Body { start, end };
        self.bodies.extend_from_slice(bytes);
        insert_change(&mut self.changes, Change { number: n, content });
    }

    // Removes an object, where the number has no change yet and there is room.
    #[tactic(auto, using(crate::proofs::Changes::room))]
    pub fn remove(&mut self, n: usize)
        requires free { find n (update_of self.old) ≡ None }
        requires room { has_room (update_of self.old) 0 ≡ true }
        ensures { update_of self.new ≡ with_change n removed (update_of self.old) }
    {
        let content = Content::Removed;
        insert_change(&mut self.changes, Change { number: n, content });
    }
}
