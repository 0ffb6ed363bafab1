// Changes of an open update, the bodies of which are kept elsewhere.
ghost use Rattle.std.specs.Prelude.{◌≡◌, ◌≤◌, ◌==◌, ◌<◌, length, nat_lt, IfSome};
ghost use Rattle.std.specs.List.{find, position};
ghost use Rattle.std.specs.Option.{option_map};
ghost use Rattle.format.specs.Bytes.{Bytes};
ghost use Rattle.format.specs.Updates.{new_numbers};
ghost use Rattle.writer.specs.Changes.{place_for, update_in};

// A body is put, which starts and ends at places among the bytes kept; or the object is removed, which is a change too: a number without one has none.
// Crate `scripts` has the like as `Change<B>`, but is built on this one; and here a body has two places, each with its name.
#[derive(Clone, Copy, Debug, PartialEq, Eq)]
pub enum Content {
    Body { start: usize, end: usize },
    Removed,
}

// What becomes of a number.
#[derive(Clone, Copy, Debug, PartialEq, Eq)]
pub struct Change {
    pub number: usize,
    pub content: Content,
}

// The change of a number, if it has one.
pub(crate) fn change_of(changes: &[Change], n: usize) -> Option<Content>
    ensures { result ≡ option_map (λ c. c.content) (find (λ c. n == c.number) changes.now) }
{
    changes
        .iter()
        .find(|change| n == change.number)
        .map(|change| change.content)
}

// The first change of a greater number, by its place, if there is one.
fn first_greater(changes: &[Change], n: usize) -> Option<usize>
    ensures is { result ≡ position (λ c. nat_lt n c.number) changes.now }
    ensures within { IfSome result (λ place. place < length changes.now) }
{
    changes.iter().position(|change| n < change.number)
}

// The first place whose number is greater.
pub(crate) fn place_for(changes: &[Change], n: usize) -> usize
    ensures is { result ≡ place_for n changes.now }
    ensures within { result ≤ length changes.now }
{
    first_greater(changes, n).unwrap_or(changes.len())
}

// How many numbers are new: they lie from Size on.
pub(crate) fn count_new(changes: &[Change], size: usize) -> usize
    ensures is { (pool : Bytes) → result ≡ new_numbers size (update_in pool changes.now) }
    ensures within { result ≤ length changes.now }
{
    changes
        .iter()
        .filter(|change| size <= change.number)
        .count()
}
