// A place in a script.
ghost use Rattle.std.specs.Prelude.{◌≤◌, length};

mod methods;

// The script, the place from which the next line is read, and how many lines stand before it. Places count from the first byte.
#[derive(Clone, Copy)]
pub struct Cursor<'a> {
    pub src: &'a [u8],
    pub place: usize,
    pub lines: usize,
    ghost within: { place ≤ length src.now },
    ghost counted: { lines ≤ place },
}
