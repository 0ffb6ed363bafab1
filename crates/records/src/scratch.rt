// The memory that reading a file takes, taken once.
use crate::revision_tables::MOST_REVISIONS;
use crate::window::Window;
use entries::cell::Cell;
use entries::reserved::Reserved;
use opening::rows::{MOST_ROWS, Rows};

mod methods;

// A window on the file, the rows of a section, the cells read for them, each with its number, and the offsets of the sections from the newest on.
// That the offsets stay as they were is a clause of each call that reads: the memory is one, so that it is taken once, and what a call leaves alone
// it says.
#[derive(Drop)]
pub struct Scratch {
    pub(crate) window: Window,
    pub(crate) rows: Rows,
    pub(crate) listed: Reserved<(u64, Cell), MOST_ROWS>,
    pub(crate) offsets: Reserved<usize, MOST_REVISIONS>,
}
