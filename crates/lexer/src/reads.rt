// The token that starts at a place.
ghost use Rattle.std.specs.Prelude.{◌≡◌, ◌+◌, ◌≤◌, length, drop};
ghost use Rattle.std.specs.List.{between};
ghost use Rattle.format.specs.Bytes.{is_regular, span, up_to};
ghost use Rattle.format.specs.Numbers.{starts_number};
ghost use Rattle.format.specs.Tokens.{after_less, after_greater, marked, start_at};
ghost use Rattle.lexer.specs.Heads.{ReadAs, name, run, text};
ghost use Rattle.lexer.specs.Views.{Reads, Takes};

use crate::bytes::is_regular;
use crate::flaw::Flaw;
use crate::head::Head;
use crate::number::Numeral;
use crate::reader::Lexer;
use crate::run::Run;
use crate::token::Token;

#[tactic(auto, using(std::proofs::lemmas::Bool::Decides::nat_tests), unfolding(format::specs::Bytes::is_digit, format::specs::Numbers::starts_number))]
fn starts_number(b: u8) -> bool
    ensures { result ≡ starts_number b }
{
    matches!(b, b'0'..=b'9' | b'+' | b'-' | b'.')
}

impl<'a> Head<'a> {
    // The place behind the regular bytes that follow the first byte.
    fn run_end(self) -> usize
        ensures is { span is_regular (self.entry.at + 1) (drop (self.entry.at + 1) self.entry.src.now) ≡ (up_to (self.entry.at + 1) (drop (self.entry.at + 1) self.entry.src.now) result, result, drop result self.entry.src.now) }
        ensures low { self.entry.at + 1 ≤ result }
        ensures high { result ≤ length self.entry.src.now }
    {
        let behind = Lexer {
            src: self.src,
            place: self.at + 1,
        };
        behind.run_end()
    }

    // The bytes from one place to another.
    fn cut(self, from: usize, to: usize) -> Run<'a>
        requires { (from ≤ to) × (to ≤ length self.src.now) }
        ensures bytes { result.bytes.now ≡ between from to self.entry.src.now }
        ensures place { result.from ≡ from }
    {
        Run {
            bytes: &self.src[from..to],
            from,
        }
    }

    // A name, whose `/` is the first byte.
    fn name(self) -> Result<(Token<'a>, usize), Flaw>
        ensures is { ReadAs name self.entry result }
        ensures takes { Takes self.entry.src.now self.entry.at result }
    {
        let to = self.run_end();
        let name = self.cut(self.at + 1, to);
        name.check_name()?;
        Ok((Token::Name(name.bytes), to))
    }

    // A literal string, whose `(` is the first byte.
    fn text(self) -> Result<(Token<'a>, usize), Flaw>
        ensures is { ReadAs text self.entry result }
        ensures takes { Takes self.entry.src.now self.entry.at result }
    {
        let to = self.string_end()?;
        Ok((Token::Text(&self.src[self.at..to]), to))
    }

    // `<<`, or a hex string, whose `<` is the first byte.
    fn less(self) -> Result<(Token<'a>, usize), Flaw>
        ensures is { ReadAs after_less self.entry result }
        ensures takes { Takes self.entry.src.now self.entry.at result }
    {
        // no byte, a second `<`, another: the three cases of one match
        match self.src.get(self.at + 1) {
            None => Err(Flaw::CutShort(self.at + 1)),
            Some(b'<') => Ok((Token::OpenDict, self.at + 2)),
            Some(_) => {
                let to = self.hex_end()?;
                Ok((Token::Hex(&self.src[self.at..to]), to))
            }
        }
    }

    // `>>`, whose first `>` is the first byte.
    fn greater(self) -> Result<(Token<'a>, usize), Flaw>
        ensures is { ReadAs after_greater self.entry result }
        ensures takes { Takes self.entry.src.now self.entry.at result }
    {
        // no byte, a second `>`, another: the three cases of one match
        match self.src.get(self.at + 1) {
            None => Err(Flaw::CutShort(self.at + 1)),
            Some(b'>') => Ok((Token::CloseDict, self.at + 2)),
            Some(_) => Err(Flaw::Stray),
        }
    }

    // Regular bytes: a number or a word.
    fn run(self) -> Result<(Token<'a>, usize), Flaw>
        ensures is { ReadAs run self.entry result }
        ensures takes { Takes self.entry.src.now self.entry.at result }
    {
        let to = self.run_end();
        let run = self.cut(self.at, to);
        if !starts_number(self.src[self.at]) {
            return Ok((Token::Word(run.bytes), to));
        }
        let number = run.numeral()?;
        match number {
            Numeral::Unsigned(n) => Ok((Token::Unsigned(n), to)),
            Numeral::Signed(z) => Ok((Token::Signed(z), to)),
            Numeral::Fraction => Ok((Token::Real(run.bytes), to)),
        }
    }

    // A token whose first byte is a delimiter.
    fn marked(self) -> Result<(Token<'a>, usize), Flaw>
        ensures is { ReadAs marked self.entry result }
        ensures takes { Takes self.entry.src.now self.entry.at result }
    {
        match self.src[self.at] {
            b'/' => self.name(),
            b'(' => self.text(),
            b'<' => self.less(),
            b'>' => self.greater(),
            b'[' => Ok((Token::OpenArray, self.at + 1)),
            b']' => Ok((Token::CloseArray, self.at + 1)),
            _ => Err(Flaw::Stray),
        }
    }

    // The token that starts here.
    pub fn start(self) -> Result<(Token<'a>, usize), Flaw>
        ensures is { Reads self.entry.src.now self.entry.at (start_at self.entry.at (drop self.entry.at self.entry.src.now)) result }
        ensures takes { Takes self.entry.src.now self.entry.at result }
    {
        if is_regular(self.src[self.at]) {
            self.run()
        } else {
            self.marked()
        }
    }
}
