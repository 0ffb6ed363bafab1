// Copies into and out of a part of a row of bytes.
ghost use Rattle.std.specs.Prelude.{◌≡◌, ◌+◌, ◌≤◌, ◌++◌, length, take};
ghost use Rattle.stores.specs.Meanings.{Filled};

// Lays `more` into the row from `at` on.
pub fn lay(row: &mut [u8], at: usize, more: &[u8])
    requires { at + length more.now ≤ length row.old }
    ensures { take (at + length more.now) row.new ≡ take at row.old ++ more.now }
{
    row[at..at + more.len()].copy_from_slice(more);
}

// Fills the start of the buffer with the bytes of the row from `from` on, as many as there are, and answers how many.
pub fn window(row: &[u8], from: usize, buffer: &mut [u8]) -> usize
    ensures { Filled row.now from buffer.old result buffer.new }
{
    let rest = &row[from.min(row.len())..];
    let count = buffer.len().min(rest.len());
    buffer[..count].copy_from_slice(&rest[..count]);
    count
}
