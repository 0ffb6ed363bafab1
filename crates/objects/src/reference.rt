// The trial for a reference: behind an integer, a generation and `R`, or nothing.
ghost use Rattle.std.specs.Prelude.{◌≡◌};
ghost use Rattle.std.specs.Option.{unwrap_or};
ghost use Rattle.objects.specs.Steps.{Takes, Tries};

use crate::tokens::is_word;
use lexer::reader::Lexer;
use lexer::token::Token;

// Puts a place back, on every way out, to where it was; once what was tried for is found, to nowhere.
// A guard holds the lexer's own place, which is a number, and not the lexer: a rule of the project.
struct Trial<'g> {
    place: &'g mut usize,
    back: Option<usize>,
}

impl Drop for Trial<'_> {
    fn drop(self)
        ensures { self.exit.0.now ≡ unwrap_or self.entry.back self.entry.place.now }
    {
        let Trial { place, back } = self;
        if let Some(back) = back {
            *place = back;
        }
    }
}

// The token that comes next, if it can be read, and a place moves behind it. Not `Lexer::next`: under the guard, the place is the guard's.
fn take<'a>(at: Lexer<'a>, place: &mut usize) -> Option<Token<'a>>
    ensures { Takes at.entry.src.now at.entry.place place.new result }
{
    let found = at.token().ok()?;
    *place = found.to;
    Some(found.token)
}

// Behind the integer `number`: a generation and `R`, and the lexer's place moves behind them; or nothing, and the place stays.
pub fn try_reference(lexer: &mut Lexer<'_>, number: u32) -> Option<u16>
    ensures is { Tries lexer.old.src.now number lexer.old.place lexer.new.place result }
    ensures src { lexer.new.src ≡ lexer.old.src }
{
    let start = *lexer;
    let mut trial = Trial {
        place: &mut lexer.place,
        back: Some(start.place),
    };
    let Token::Unsigned(second) = take(start, trial.place)? else {
        return None;
    };
    if number < 1 {
        return None;
    }
    let generation = u16::try_from(second).ok()?;
    let mark = take(start.to(*trial.place), trial.place)?;
    if !is_word(mark, b"R") {
        return None;
    }
    trial.back = None;
    Some(generation)
}
