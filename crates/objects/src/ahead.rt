// What an array or a dictionary has next.
ghost use Rattle.std.specs.Prelude.{◌≡◌};
ghost use Rattle.objects.specs.Extents.{reached};
ghost use Rattle.objects.specs.Steps.{Has, ClosesArray};

use crate::tokens::misplaced;
use faults::fault::Fault;
use faults::reason::Reason;
use lexer::reader::Lexer;
use lexer::token::Token;

// What a dictionary has next, with the place behind it.
#[derive(Clone, Copy)]
pub enum Ahead<'a> {
    // the mark that closes the dictionary
    Closes {
        behind: usize,
    },
    // a key, by its name's bytes behind the `/`, with the place of its `/`
    Key {
        name: &'a [u8],
        start: usize,
        behind: usize,
    },
}

// What a dictionary has next.
pub fn next_in(at: Lexer<'_>) -> Result<Ahead<'_>, Fault>
    ensures { Has at.entry.src.now at.entry.place result }
{
    let found = at.token()?;
    match found.token {
        Token::CloseDict => Ok(Ahead::Closes { behind: found.to }),
        Token::Name(name) => Ok(Ahead::Key {
            name,
            start: found.from,
            behind: found.to,
        }),
        _ => Err(misplaced(found, Reason::BadToken)),
    }
}

// The place behind the mark that closes an array, if it stands next.
pub fn closing(at: Lexer<'_>) -> Option<usize>
    ensures { ClosesArray at.entry.src.now at.entry.place result }
{
    let found = at.token().ok()?;
    match found.token {
        Token::CloseArray => Some(found.to),
        _ => None,
    }
}

// Whether a walk that stops before a place has come to it.
pub fn is_reached(stop: Option<usize>, place: usize) -> bool
    ensures { result ≡ reached stop place }
{
    stop.is_some_and(|stop| stop <= place)
}
