// A revision in the tables of an open file.

// Where its section starts and where it ends, its Size, its Root, and where its cells start among those of all revisions.
#[derive(Clone, Copy, Debug, PartialEq, Eq)]
pub struct Revision {
    pub offset: usize,
    pub end: usize,
    pub size: usize,
    pub root: u32,
    pub root_generation: u32,
    pub first: usize,
}
