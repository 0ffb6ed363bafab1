// The tables of the revisions of an open file.
use crate::rows::HIGHEST_NUMBER;
use entries::cell::Cell;
use entries::reserved::Reserved;
use entries::revision::Revision;

mod methods;

// How many revisions a file may have, the highest Size, and how many cells their tables have.
// There is no `From` of `u64` for `usize`, and none is called in a constant.
pub const MOST_REVISIONS: usize = 64;

pub const MOST_SIZE: usize = HIGHEST_NUMBER as usize + 1;

pub const MOST_CELLS: usize = MOST_REVISIONS * MOST_SIZE;

// The revisions, and the cells of all their tables, one behind the other: a list of cells for each revision would take memory after opening.
// That the tables stand so is no invariant: `cut` keeps any part of them.
#[derive(Drop)]
pub struct Tables {
    revisions: Reserved<Revision, MOST_REVISIONS>,
    cells: Reserved<Cell, MOST_CELLS>,
}
