// A dictionary that has to stand next, as behind the word `trailer`.
ghost use Rattle.std.specs.Prelude.{◌≡◌, ◌+◌, ◌^◌, ◌<◌, length, MatchResult};
ghost use Rattle.format.specs.Bytes.{bad};
ghost use Rattle.format.specs.Tokens.{token_at};
ghost use Rattle.format.specs.Sections.{trailer_at};
ghost use Rattle.objects.specs.Dictionaries.{Opening, Opened, OpenedAt};
ghost use Rattle.objects.specs.Steps.{token_in, rest_of};

use crate::later::later_fault;
use crate::read::read_dictionary;
use crate::reading::Reading;
use crate::tokens::misplaced;
use faults::fault::Fault;
use faults::reason::Reason;
use lexer::reader::Lexer;
use lexer::token::Token;

// A dictionary: the place of its `<<`, the place behind that, where its entries start, and the place behind its `>>`.
#[derive(Clone, Copy, Debug, PartialEq, Eq)]
pub struct Dictionary {
    pub mark: usize,
    pub inside: usize,
    pub end: usize,
}

// The `<<` that has to stand next: its place, and the place behind it.
fn opening(at: Lexer<'_>) -> Result<(usize, usize), Fault>
    ensures { Opening at.entry.src.now at.entry.place result }
{
    let found = at.token()?;
    match found.token {
        Token::OpenDict => Ok((found.from, found.to)),
        _ => Err(misplaced(found, Reason::BadToken)),
    }
}

// The dictionary that has to stand next.
fn marked(at: Lexer<'_>) -> Result<Dictionary, Fault>
    ensures { MatchResult result (Opened at.entry.src.now at.entry.place) (λ f. trailer_at (token_in at.entry.src.now at.entry.place) ≡ bad f) }
{
    let (mark, inside) = opening(at)?;
    let end = read_dictionary(at.to(inside), Reading::checked(31))?;
    Ok(Dictionary { mark, inside, end })
}

// The dictionary that has to stand next, in bytes that start at the place `base` of the file.
// Its places count in the bytes; the place of a fault counts in the file. That it can is asked of the caller: `View` of `opening`, which has this fact,
// lies above this crate.
pub fn dictionary_at(base: usize, at: Lexer<'_>) -> Result<Dictionary, Fault>
    requires { base + length at.src.now < 2 ^ 64 }
    ensures { MatchResult result (OpenedAt base at.entry.src.now at.entry.place) (λ f. trailer_at (token_at (base + at.entry.place) (rest_of at.entry)) ≡ bad f) }
{
    marked(at).map_err(|fault| later_fault(base, fault))
}
