// The chain of sections, from the newest back to the oldest.

mod steps;

// Where a revision may end: at the end of the file, or at or before the next section.
#[derive(Clone, Copy)]
pub enum Ending {
    At(usize),
    By(usize),
}
