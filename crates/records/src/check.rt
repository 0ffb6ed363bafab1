// The checks of what a section lists, in their order.
ghost use Rattle.std.specs.Prelude.{◌≡◌, ◌≤◌, true, cond, length, IfOk, Ok, OnOk};
ghost use Rattle.format.specs.Bytes.{Bytes};
ghost use Rattle.format.specs.Chain.{in_bound};
ghost use Rattle.format.specs.Revisions.{covered, size_is, slots_fit};
ghost use Rattle.entries.specs.Cells.{states_in};
ghost use Rattle.entries.specs.Rows.{rows_of};
ghost use Rattle.records.specs.Linked.{told_by};
ghost use Rattle.records.specs.Links.{rows_checked};

use crate::link::Link;
use crate::root::root_fits;
use crate::rows::{broken_rule, covered, highest, slots_fit};
use entries::cell::Cell;
use entries::entry::Row;
use faults::fault::Fault;

// The oldest section has one subsection, from 0.
pub fn subsections_fit(oldest: bool, one_from_zero: bool) -> bool
    ensures { result ≡ cond oldest one_from_zero true }
{
    !oldest || one_from_zero
}

fn size_is(told: i64, size: usize) -> bool
    ensures { result ≡ size_is told size }
{
    usize::try_from(told) == Ok(size)
}

// The Size of a section, where its entries, Size and Root fit, and its subsections do as `fits` says; `old` is the table before.
// The section's rows and the table before it come from two parts of the memory, and so they are two values.
pub fn check_rows(fits: bool, link: Link, rows: &[Row], old: &[Cell]) -> Result<usize, Fault>
    requires bound { in_bound (rows_of rows.now) ≡ true }
    requires small { length old.now ≤ 1000 }
    ensures is { (file : Bytes) → result ≡ rows_checked fits link.offset (told_by link.told) (rows_of rows.now) (states_in file old.now) }
    ensures small { IfOk result (λ n. n ≤ 1000) }
    ensures covered { IfOk result (λ n. covered n 0 (rows_of rows.now) (length old.now) ≡ true) }
    ensures fits { OnOk result (slots_fit link.offset link.told.size (rows_of rows.now) ≡ Ok tt) }
{
    if !fits {
        return Err(broken_rule(link.offset, 0));
    }
    slots_fit(link.offset, link.told.size, rows)?;
    let size = highest(old.len(), rows);
    if !size_is(link.told.size, size) {
        return Err(broken_rule(link.offset, 0));
    }
    if !covered(size, rows, old.len()) {
        return Err(broken_rule(link.offset, 0));
    }
    if !root_fits(link.told.root, link.told.root_generation, rows, old) {
        return Err(broken_rule(link.offset, u64::from(link.told.root)));
    }
    Ok(size)
}
