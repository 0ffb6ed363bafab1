// How an object starts.
ghost use Rattle.std.specs.Prelude.{◌≡◌};
ghost use Rattle.objects.specs.Steps.{Starts, Counts, word_shape};

use crate::reference::try_reference;
use crate::shape::{Extent, Shape};
use crate::tokens::misplaced;
use faults::fault::Fault;
use faults::reason::Reason;
use lexer::name::same_bytes;
use lexer::reader::Lexer;
use lexer::token::Token;

// How an object starts, with the place behind what was read of it.
#[derive(Clone, Copy)]
pub enum Start {
    // an object with nothing inside
    Whole(Extent),
    // the place of the mark that opens an array, and the place behind it
    Array { mark: usize, inside: usize },
    // the place of the mark that opens a dictionary, and the place behind it
    Dictionary { mark: usize, inside: usize },
}

// `true`, `false` and `null`, tested in turn. Tried as a `match` over byte strings: the proofs of its arms did not close by themselves, and its default arm
// has a goal at each byte where a word can differ, without a fact that tells the byte.
fn word_shape(word: &[u8]) -> Option<Shape>
    ensures { result ≡ word_shape word.now }
{
    if same_bytes(word, b"true") {
        Some(Shape::Boolean(true))
    } else if same_bytes(word, b"false") {
        Some(Shape::Boolean(false))
    } else if same_bytes(word, b"null") {
        Some(Shape::Null)
    } else {
        None
    }
}

// An integer without a sign, or the reference that it begins, from behind the integer on.
fn whole_number(behind: Lexer<'_>, number: u32) -> Extent
    ensures { Counts behind.entry.src.now number behind.entry.place result }
{
    let mut lexer = behind;
    let shape = match try_reference(&mut lexer, number) {
        Some(generation) => Shape::Reference { number, generation },
        None => Shape::Integer(i64::from(number)),
    };
    Extent {
        shape,
        end: lexer.place,
    }
}

// How the object starts that stands next.
pub fn start_of(at: Lexer<'_>) -> Result<Start, Fault>
    ensures { Starts at.entry.src.now at.entry.place result }
{
    let found = at.token()?;
    let shape = match found.token {
        Token::Unsigned(n) => return Ok(Start::Whole(whole_number(at.to(found.to), n))),
        Token::OpenArray => return Ok(Start::Array {
            mark: found.from,
            inside: found.to,
        }),
        Token::OpenDict => return Ok(Start::Dictionary {
            mark: found.from,
            inside: found.to,
        }),
        Token::Signed(z) => Shape::Integer(i64::from(z)),
        Token::Real(_) => Shape::Real,
        Token::Name(_) => Shape::Name,
        Token::Text(_) => Shape::Text,
        Token::Hex(_) => Shape::Hex,
        Token::Word(word) => word_shape(word).ok_or(misplaced(found, Reason::BadToken))?,
        Token::CloseArray | Token::CloseDict | Token::End => return Err(misplaced(
            found,
            Reason::BadToken,
        )),
    };
    Ok(Start::Whole(Extent {
        shape,
        end: found.to,
    }))
}
