// A section, and what its trailer says.
use opening::told::Told;

// Where the section starts, where it ends, whether it has one subsection, from 0, and what its trailer says.
#[derive(Clone, Copy)]
pub struct Link {
    pub offset: usize,
    pub end: usize,
    pub one_from_zero: bool,
    pub told: Told,
}
