// A part of a file in memory.
ghost use Rattle.std.specs.Prelude.{◌+◌, ◌^◌, ◌<◌, length};

use lexer::reader::Lexer;

// The bytes with a place in them, and the place of the file at which they start.
#[derive(Clone, Copy, Debug)]
pub struct View<'a> {
    pub base: usize,
    pub at: Lexer<'a>,
    ghost counted: { base + length at.src.now < 2 ^ 64 },
}
