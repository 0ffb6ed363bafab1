// An open update, in memory that was taken once.
ghost use Rattle.std.specs.Prelude.{◌≡◌, true, length};
ghost use Rattle.entries.specs.Reserving.{items_of};
ghost use Rattle.format.specs.Updates.{body_bytes};
ghost use Rattle.writer.specs.Changes.{all_within, update_in};

use crate::change::Change;
use entries::reserved::Reserved;

mod methods;

// The most changes of an update, and the most bytes of their bodies.
pub const MOST_CHANGES: usize = 32;

pub const MOST_BODY_BYTES: usize = 16384;

// The changes by ascending numbers, and the bytes of their bodies. A `Vec` for each body, or a map from the numbers, would take memory with each
// change, and none is taken after a book is made: so all bodies stand in one list, a change has the places of its own, and changes are searched by number.
#[derive(Drop)]
pub struct Held {
    changes: Reserved<Change, MOST_CHANGES>,
    bodies: Reserved<u8, MOST_BODY_BYTES>,
    ghost within: { all_within (length (items_of bodies)) (items_of changes) ≡ true },
    ghost all: { body_bytes (update_in (items_of bodies) (items_of changes)) ≡ length (items_of bodies) },
}
