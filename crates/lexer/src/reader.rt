// A reader with a place of its own.
ghost use Rattle.std.specs.Prelude.{◌≡◌, ◌≤◌, min, length};
ghost use Rattle.lexer.specs.Views.{Tells, PlacedIn, MovesTo};

use crate::token::Found;
use faults::fault::Fault;

// The bytes, and the place from which the next token is read.
#[derive(Clone, Copy, Debug)]
pub struct Lexer<'a> {
    pub src: &'a [u8],
    pub place: usize,
    ghost within: { place ≤ length src.now },
}

impl<'a> Lexer<'a> {
    pub fn new(src: &'a [u8]) -> Lexer<'a>
        ensures src { result.src.now ≡ src.now }
        ensures place { result.place ≡ 0 }
    {
        Lexer { src, place: 0 }
    }

    // From a place on; past the end of the bytes, from their end.
    pub fn at(src: &'a [u8], place: usize) -> Lexer<'a>
        ensures src { result.src.now ≡ src.now }
        ensures place { result.place ≡ min place (length src.now) }
    {
        Lexer {
            src,
            place: place.min(src.len()),
        }
    }

    // The same bytes from another place on.
    pub fn to(self, place: usize) -> Lexer<'a>
        requires { place ≤ length self.src.now }
        ensures src { result.src.now ≡ self.entry.src.now }
        ensures place { result.place ≡ place }
    {
        Lexer {
            src: self.src,
            place,
        }
    }

    // The next token, and the place moves behind it; where there is none, the place stays.
    pub fn next(&mut self) -> Result<Found<'a>, Fault>
        ensures is { Tells self.old.src.now self.old.place result }
        ensures placed { PlacedIn self.old.src.now self.old.place result }
        ensures moves { MovesTo self.old.place result self.new.place }
        ensures src { self.new.src ≡ self.old.src }
    {
        let found = self.token()?;
        self.place = found.to;
        Ok(found)
    }
}
