// Bytes that are being written, in memory of a size that was taken once.
ghost use Rattle.std.specs.Prelude.{◌≤◌, vec_len, vec_capacity};

mod appends;
mod digits;
mod object;
mod section;

// At most `limit` bytes: the memory for them is there. It is no `Reserved`: `Draft::new` is public and promises any limit, and a constant would be
// one limit.
#[derive(Drop)]
pub struct Draft {
    bytes: Vec<u8>,
    limit: usize,
    ghost within: { vec_len bytes ≤ limit },
    ghost reserved: { limit ≤ vec_capacity bytes },
}
