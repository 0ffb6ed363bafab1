// What an update makes of each number, in memory that was taken once.
use entries::reserved::Reserved;

// As many numbers as a table and an update have together.
pub const MOST_NUMBERS: usize = 1032;

// What becomes of a number.
#[derive(Clone, Copy, Debug, PartialEq, Eq)]
pub enum Planned {
    // in use, as it was
    Kept,
    // free, as it was: the generation, and the next free number
    Vacant { generation: u32, next: u64 },
    // a body, written at an offset
    Wrote { generation: u32, offset: u64 },
    // freed, with its new generation
    Freed { generation: u32 },
}

// What becomes of the numbers from 0 on.
pub type Plan = Reserved<Planned, MOST_NUMBERS>;
