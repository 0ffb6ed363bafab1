// What the lines of a script are.

// A line between changes that starts one.
#[derive(Clone, Copy)]
pub enum Head {
    Remove(u64),
    Put(u64),
}

// A line of a body.
#[derive(Clone, Copy)]
pub enum BodyLine {
    Text,
    // just a dot
    End,
}
