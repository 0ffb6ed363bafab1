// What a trailer says.

// Size; Prev, if there is one; Root by its number and its generation.
// Root's two are not bundled: a removal, and the fault of a root that does not fit, ask for the number alone.
#[derive(Clone, Copy, Debug, PartialEq, Eq)]
pub struct Told {
    pub size: i64,
    pub prev: Option<i64>,
    pub root: u32,
    pub root_generation: u32,
}

// What a trailer's entry for a key is; a null value counts as absent.
#[derive(Clone, Copy, Debug, PartialEq, Eq)]
pub enum Kind {
    Absent,
    Number(i64),
    // an object's number and its generation
    Reference(u32, u32),
    Other,
}
