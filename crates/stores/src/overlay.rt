// A store over another, which it shows and never writes to.
ghost use Rattle.std.specs.Prelude.{◌≡◌, ◌≤◌, length};
ghost use Rattle.stores.specs.Figures.{longest, tail_size};

use crate::store::Store;

mod methods;

// How many bytes an overlay takes of its own.
pub const TAIL_SIZE: usize = 4096;

// The first `shown` bytes of the store below, or all of them where it has fewer, and then the first `used` bytes of the tail.
// The tail is a fixed 4096 bytes of the overlay itself, so its bytes are counted beside it: a cut lowers the count, and writes nothing.
#[derive(Drop)]
pub struct Overlay<S: Store> {
    below: S,
    shown: usize,
    tail: [u8; TAIL_SIZE],
    used: usize,
    ghost full: { length tail ≡ tail_size },
    ghost within: { used ≤ tail_size },
    ghost fits: { shown ≤ longest },
}
