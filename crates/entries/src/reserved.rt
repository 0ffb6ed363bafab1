// A list in memory of a size that was taken once.
ghost use Rattle.std.specs.Prelude.{◌≤◌, vec_len, vec_capacity};

mod calls;
#[cfg(test)]
mod tests;

// At most `MOST` items: the memory for them is there.
#[derive(Drop)]
pub struct Reserved<T, const MOST: usize> {
    items: Vec<T>,
    ghost few: { vec_len items ≤ MOST },
    ghost places: { MOST ≤ vec_capacity items },
}
