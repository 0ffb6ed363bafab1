// The rows of a section, in memory of a size that was taken once.
use entries::entry::Row;
use entries::reserved::Reserved;

// A section of 32,768 bytes has at most so many entries of 20 bytes.
pub const MOST_ROWS: usize = 1638;

pub type Rows = Reserved<Row, MOST_ROWS>;
