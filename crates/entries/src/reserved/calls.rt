// Making such a list, asking it, and adding to it. What adds asks for room, and so it never fails.
ghost use Rattle.std.specs.Prelude.{◌≡◌, ◌+◌, ◌<◌, ◌≤◌, [], ◌∷◌, ◌++◌, length, insert, take, IfOk};
ghost use Rattle.std.specs.Option.{IfNone, option_to_list};
ghost use Rattle.entries.specs.Reserving.{items_of};

use super::Reserved;
use std::alloc::{AllocError, Global};

impl<T, const MOST: usize> Reserved<T, MOST> {
    // No items yet, with room for as many as there may be.
    pub fn new(heap: Global) -> Result<Self, AllocError>
        ensures { IfOk result (λ r. items_of r ≡ []) }
    {
        let items = Vec::with_capacity(heap, MOST)?;
        Ok(Reserved { items })
    }

    // No items again, in the same memory.
    pub fn clear(&mut self)
    where
        T: Drop,
        ensures { items_of self.new ≡ [] }
    {
        self.items.clear();
    }

    // How many items there are.
    pub fn len(&self) -> usize
        ensures { result ≡ length (items_of self.now) }
    {
        self.items.len()
    }

    // One item more.
    pub fn push(&mut self, one: T)
        requires { length (items_of self.old) < MOST }
        ensures { items_of self.new ≡ items_of self.old ++ one ∷ [] }
    {
        self.items.push_reserved(one);
    }

    // Some items more.
    pub fn extend_from_slice(&mut self, more: &[T])
    where
        T: Copy,
        requires { length (items_of self.old) + length more.now ≤ MOST }
        ensures { items_of self.new ≡ items_of self.old ++ more.now }
    {
        let _ = self.items.extend_from_slice(more);
    }

    // One item more at a place among the others.
    pub fn insert(&mut self, place: usize, one: T)
    where
        T: Drop,
        requires place { place ≤ length (items_of self.old) }
        requires room { length (items_of self.old) < MOST }
        ensures { items_of self.new ≡ insert (items_of self.old) place one }
    {
        let _ = self.items.insert(place, one);
    }

    // The last item, taken out; none where there are no items.
    pub fn pop(&mut self) -> Option<T>
        ensures items { items_of self.old ≡ items_of self.new ++ option_to_list result }
        ensures none { IfNone result (items_of self.old ≡ []) }
    {
        self.items.pop()
    }

    // The first items, as many as named, and no others.
    pub fn truncate(&mut self, kept: usize)
    where
        T: Drop,
        ensures { items_of self.new ≡ take kept (items_of self.old) }
    {
        self.items.truncate(kept);
    }

    // The items, in their order.
    pub fn as_slice(&self) -> &[T]
        ensures { result.now ≡ items_of self.now }
    {
        self.items.as_slice()
    }
}
