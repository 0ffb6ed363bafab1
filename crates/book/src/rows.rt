// The rows and the cells of the tables, for the questions.
ghost use Rattle.std.specs.Prelude.{◌≡◌, ◌+◌, ◌≤◌, length, not, count_by};
ghost use Rattle.entries.specs.Tables.{cells_of};
ghost use Rattle.keeping.specs.Staying.{RowAt};
ghost use Rattle.book.specs.Rows.{BodyAmong, Found, is_free};

use entries::cell::Cell;
use entries::revision::Revision;

// The row of revision k, counted from 1.
pub fn row_of(revisions: &[Revision], k: usize) -> Option<Revision>
    ensures { Found revisions.now k result }
{
    revisions.get(k.checked_sub(1)?).copied()
}

// The row of the newest revision. There is one, so it is read in place: `last` would only wrap it.
pub fn last_row(revisions: &[Revision]) -> Revision
    requires { 1 ≤ length revisions.now }
    ensures { RowAt revisions.now (length revisions.now) result }
{
    revisions[revisions.len() - 1]
}

// Where the cells of a row end among all cells.
pub fn cells_end(cells: &[Cell], row: Revision) -> usize
    requires { row.first + row.size ≤ length cells.now }
    ensures { result ≡ row.first + row.size }
{
    row.first + row.size
}

// The cells of a row.
pub fn cells_of(cells: &[Cell], row: Revision) -> &[Cell]
    requires { row.first + row.size ≤ length cells.now }
    ensures { result.now ≡ cells_of cells.now row }
{
    let first = row.first;
    let end = cells_end(cells, row);
    &cells[first..end]
}

// The generation of an object, and where its body starts and ends in the file. That it lies in the bytes of a store is asked by those
// who read it there: it is a cell's places alone, and holds no store.
#[derive(Clone, Copy, Debug, PartialEq, Eq)]
pub struct Body {
    pub generation: u32,
    pub start: usize,
    pub end: usize,
}

// The body of a number among the cells of a row, where it is in use.
pub fn body_of(own: &[Cell], n: usize) -> Option<Body>
    ensures { BodyAmong own.now n result }
{
    let Cell::Used {
        generation,
        start,
        end,
    } = *own.get(n)?
    else {
        return None;
    };
    Some(Body {
        generation,
        start,
        end,
    })
}

// Whether a cell is in use. The writer asks the same of a number that may have no cell, in the words of the format: one method for both would be
// one `matches!` with two contracts.
fn is_used(cell: &Cell) -> bool
    ensures { result ≡ not (is_free cell.now) }
{
    matches!(cell, Cell::Used { .. })
}

// How many cells are in use.
pub fn used_in(cells: &[Cell]) -> usize
    ensures { result ≡ count_by (λ c. not (is_free c)) cells.now }
{
    cells.iter().filter(|cell| is_used(cell)).count()
}
