// A part of a store's bytes, in memory that was taken once.
ghost use Rattle.std.specs.Prelude.{◌≡◌, ◌≤◌, vec_len};
ghost use Rattle.format.specs.Chain.{window_bytes};

mod methods;

// The most bytes that a section, and an object in the file, may take.
pub const WINDOW_BYTES: usize = 32_768;

// The first `used` bytes of the memory, which keeps its size: a store reads into a slice of it, and a vector of the bytes that are seen
// would have to be filled up again before each read. A flat store and an overlay too keep a buffer with `used` beside it, and the three are not one type:
// a window's memory is of one size and filled by a store, a flat store's is given from outside and of any size, and an overlay's tail is an array of its own.
#[derive(Drop)]
pub struct Window {
    bytes: Vec<u8>,
    used: usize,
    ghost full: { vec_len bytes ≡ window_bytes },
    ghost within: { used ≤ window_bytes },
}
