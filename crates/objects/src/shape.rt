// What an object is, without what stands inside it.

#[derive(Clone, Copy, Debug, PartialEq, Eq)]
pub enum Shape {
    Null,
    Boolean(bool),
    Integer(i64),
    Real,
    Text,
    Hex,
    Name,
    Array,
    Dictionary,
    Reference { number: u32, generation: u16 },
}

// An object in the bytes: where it starts, the place behind it, and what it is.
#[derive(Clone, Copy, Debug, PartialEq, Eq)]
pub struct Value {
    pub start: usize,
    pub end: usize,
    pub shape: Shape,
}

// What an object is, and the place behind it.
#[derive(Clone, Copy, Debug, PartialEq, Eq)]
pub struct Extent {
    pub shape: Shape,
    pub end: usize,
}

// An entry of a dictionary: its key from the `/` to the place behind it, and its value.
// The name's bytes behind the `/`, which `lexer::name` compares by what they spell, are `&src[entry.key + 1..entry.behind]`.
#[derive(Clone, Copy, Debug, PartialEq, Eq)]
pub struct Entry {
    pub key: usize,
    pub behind: usize,
    pub value: Value,
}
