// The table of the newest revision, asked by number.
ghost use Rattle.std.specs.Prelude.{◌≡◌};
ghost use Rattle.std.specs.Option.{option_map};
ghost use Rattle.entries.specs.Cells.{state_in};
ghost use Rattle.format.specs.Book.{is_used, is_worn_out};
ghost use Rattle.format.specs.Bytes.{Bytes};
ghost use Rattle.format.specs.Revisions.{nth};

use entries::cell::Cell;

// The cell of a number, if the table has it.
pub(crate) fn cell_at(cells: &[Cell], n: usize) -> Option<Cell>
    ensures { result ≡ nth n cells.now }
{
    cells.get(n).copied()
}

// Whether a number is in use. `book` asks a cell alone, among those that it counts, in words of its own: this speaks of a number that may have none,
// in the words of the format, and one method for both would be one `matches!` with two contracts.
pub(crate) fn is_used(cell: Option<Cell>) -> bool
    ensures { (file : Bytes) → result ≡ is_used (option_map (state_in file) cell) }
{
    cell.is_some_and(|cell| matches!(cell, Cell::Used { .. }))
}

// Whether a number is free for good.
pub(crate) fn is_worn_out(cell: Option<Cell>) -> bool
    ensures { (file : Bytes) → result ≡ is_worn_out (option_map (state_in file) cell) }
{
    cell.is_some_and(|cell| matches!(cell, Cell::Free { generation, .. } if generation == 65535))
}
