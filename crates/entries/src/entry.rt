// Entries of cross-reference sections.

// An entry of a section, by its ten digits and its generation.
#[derive(Clone, Copy, Debug, PartialEq, Eq)]
pub enum Entry {
    // in use: where its object stands in the file
    Used { offset: u64, generation: u32 },
    // free: the next free number
    Free { next: u64, generation: u32 },
}

// An entry with the number that it is listed under.
#[derive(Clone, Copy, Debug, PartialEq, Eq)]
pub struct Row {
    pub number: u64,
    pub entry: Entry,
}
