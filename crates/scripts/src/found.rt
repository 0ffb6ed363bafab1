// A change as a script has it.

use crate::change::Change;

// Its body is the lines, with the dots that the script adds: `crate::dots::add_body` takes them away.
pub type Spelled<'a> = Change<&'a [u8]>;

// A change, with the line that it starts on.
#[derive(Clone, Copy)]
pub struct Found<'a> {
    pub line: usize,
    pub number: u64,
    pub change: Spelled<'a>,
}
