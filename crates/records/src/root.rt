// The root of a revision.
ghost use Rattle.std.specs.Prelude.{◌≡◌};
ghost use Rattle.format.specs.Bytes.{Bytes};
ghost use Rattle.format.specs.Revisions.{root_fits, used_with};
ghost use Rattle.entries.specs.Cells.{state_in, states_in};
ghost use Rattle.entries.specs.Rows.{rows_of};
ghost use Rattle.records.specs.Laid.{used_at};

use crate::rows::find_row;
use entries::cell::Cell;
use entries::entry::{Entry, Row};

// The cell is in use with that generation.
fn is_used_with(cell: &Cell, generation: u32) -> bool
    ensures { (file : Bytes) → result ≡ used_with generation (state_in file cell.now) }
{
    matches!(cell, Cell::Used { generation: held, .. } if *held == generation)
}

// The cell at `n` is in use with that generation.
fn used_at(n: usize, generation: u32, cells: &[Cell]) -> bool
    ensures { (file : Bytes) → result ≡ used_at n generation (states_in file cells.now) }
{
    cells
        .get(n)
        .is_some_and(|cell| is_used_with(cell, generation))
}

// Root, which a trailer gives as a number and a generation, is in use with that generation, by its row or, where it has none, in the table before.
// The rows and the table are two values, as in `check_rows`.
pub fn root_fits(root: u32, root_generation: u32, rows: &[Row], old: &[Cell]) -> bool
    ensures { (file : Bytes) → result ≡ root_fits root root_generation (rows_of rows.now) (states_in file old.now) }
{
    match find_row(rows, u64::from(root)) {
        Some(i) => {
            matches!(rows[i].entry, Entry::Used { generation, .. } if generation == root_generation)
        }
        // there is no `From` of `u32` for `usize`, and `try_from` would answer an error that never comes
        None => used_at(root as usize, root_generation, old),
    }
}
