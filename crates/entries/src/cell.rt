// What a revision's table has for a number.

#[derive(Clone, Copy, Debug, PartialEq, Eq)]
pub enum Cell {
    // in use: the generation, and where the body starts and ends in the file
    Used {
        generation: u32,
        start: usize,
        end: usize,
    },
    // free: the generation, and the next free number
    Free {
        generation: u32,
        next: u64,
    },
}
