// The cells of a revision's table.
ghost use Rattle.std.specs.Prelude.{◌≡◌, ◌+◌, ◌-◌, ◌≤◌, ◌++◌, length, drop};
ghost use Rattle.entries.specs.Reserving.{items_of};
ghost use Rattle.format.specs.Revisions.{find};
ghost use Rattle.records.specs.Laid.{Covers, laid};

use crate::revision_tables::MOST_CELLS;
use entries::cell::Cell;
use entries::reserved::Reserved;

// The cell that is listed for a number, the first where there are several: searched from the front, as in `find_row`.
fn listed_cell(listed: &[(u64, Cell)], n: u64) -> Option<Cell>
    ensures { result ≡ find n listed.now }
{
    // by its place: `find` was built to a loop that takes half as long again, over records whose revisions list many numbers
    let place = listed.iter().position(|row| row.0 == n)?;
    Some(listed[place].1)
}

// Adds a table of that Size behind the cells: for each number the cell that is listed or, where there is none, its cell in the table before,
// which is the last one and starts at `first`. The place, the Size and the list have three sources, and meet here alone.
pub fn lay(
    cells: &mut Reserved<Cell, MOST_CELLS>,
    first: usize,
    size: usize,
    listed: &[(u64, Cell)],
)
    requires last { first ≤ length (items_of cells.old) }
    requires room { length (items_of cells.old) + size ≤ 64000 }
    requires covered { Covers size listed.now (length (items_of cells.old) - first) }
    ensures items { items_of cells.new ≡ items_of cells.old ++ laid size 0 listed.now (drop first (items_of cells.old)) }
    ensures len { length (items_of cells.new) ≡ length (items_of cells.old) + size }
{
    // the cells are read while they grow, so no iterator lends them
    for n in 0..size {
        let held = cells.as_slice();
        // there is no `From` of `usize` for `u64`
        let cell = listed_cell(listed, n as u64).unwrap_or_else(|| held[first + n]);
        cells.push(cell);
    }
}
