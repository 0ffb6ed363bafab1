// Tokens.
ghost use Rattle.lexer.specs.Views.{Tells, PlacedIn};

use crate::flaw::flaw_fault;
use crate::head::Head;
use crate::reader::Lexer;
use faults::fault::Fault;

// A token; its bytes stay where they are.
#[derive(Clone, Copy, Debug)]
pub enum Token<'a> {
    // an integer without a sign
    Unsigned(u32),
    // an integer with one
    Signed(i32),
    // a real, with its bytes
    Real(&'a [u8]),
    // a name, with its bytes behind the `/`: what they stand for, `crate::name` compares
    Name(&'a [u8]),
    // a literal string, with its bytes from `(` to `)`
    Text(&'a [u8]),
    // a hex string, with its bytes from `<` to `>`
    Hex(&'a [u8]),
    // any other regular bytes
    Word(&'a [u8]),
    OpenArray,
    CloseArray,
    OpenDict,
    CloseDict,
    // the bytes end
    End,
}

// A token with its first place and the place behind it.
#[derive(Clone, Copy, Debug)]
pub struct Found<'a> {
    pub token: Token<'a>,
    pub from: usize,
    pub to: usize,
}

impl<'a> Lexer<'a> {
    // The token that comes next, behind white space and comments.
    pub fn token(self) -> Result<Found<'a>, Fault>
        ensures is { Tells self.entry.src.now self.entry.place result }
        ensures placed { PlacedIn self.entry.src.now self.entry.place result }
    {
        let at = self.skip_space();
        if at == self.src.len() {
            return Ok(Found {
                token: Token::End,
                from: at,
                to: at,
            });
        }
        let head = Head { src: self.src, at };
        let (token, to) = head.start().map_err(|flaw| flaw_fault(at, flaw))?;
        Ok(Found {
            token,
            from: at,
            to,
        })
    }
}
