// The parts of a line. Each reader is given the window with the place in it where the part starts, and answers the place behind.
ghost use Rattle.std.specs.Prelude.{◌^◌, ◌≤◌};
ghost use Rattle.format.specs.Lines.{eol, exact, exact_line, digits, digits_of, sub_line, number_line};
ghost use Rattle.opening.specs.Parts.{Passes, Takes, Below, BothBelow};

use crate::numbers::{first_digits, number};
use crate::part::Lack;
use lexer::reader::Lexer;

// A number of a line has one to ten digits.
pub const MOST_DIGITS: usize = 10;

// An end of line.
pub fn eol(at: Lexer<'_>) -> Result<usize, Lack>
    ensures { Passes eol at.entry.src.now at.entry.place result }
{
    at.line_end()
}

// Just these bytes.
pub fn exact(at: Lexer<'_>, word: &[u8]) -> Result<usize, Lack>
    ensures { Passes (exact word.now) at.entry.src.now at.entry.place result }
{
    let rest = &at.src[at.place..];
    if rest.starts_with(word) {
        return Ok(at.place + word.len());
    }
    // where the bytes end in the word, they are its front
    if word.starts_with(rest) {
        return Err(Lack::Short);
    }
    Err(Lack::Misfit)
}

// These bytes, then an end of line.
pub fn exact_line(at: Lexer<'_>, word: &[u8]) -> Result<usize, Lack>
    ensures { Passes (exact_line word.now) at.entry.src.now at.entry.place result }
{
    let end = exact(at, word)?;
    eol(at.to(end))
}

// The number that one to ten digits spell.
pub fn digits(at: Lexer<'_>) -> Result<(u64, usize), Lack>
    ensures is { Takes (λ n. n) digits at.entry.src.now at.entry.place result }
    ensures small { Below (10 ^ 10) result }
{
    if at.place == at.src.len() {
        return Err(Lack::Short);
    }
    let rest = &at.src[at.place..];
    let found = first_digits(MOST_DIGITS + 1, rest);
    if found == 0 || found > MOST_DIGITS {
        return Err(Lack::Misfit);
    }
    Ok((number(&rest[..found]), at.place + found))
}

// The number that exactly so many digits spell.
pub fn digits_of(count: usize, at: Lexer<'_>) -> Result<(u64, usize), Lack>
    requires { count ≤ 10 }
    ensures is { Takes (λ n. n) (digits_of count 0) at.entry.src.now at.entry.place result }
    ensures small { Below (10 ^ count) result }
{
    let rest = &at.src[at.place..];
    let found = first_digits(count, rest);
    if found >= count {
        return Ok((number(&rest[..count]), at.place + count));
    }
    if found == rest.len() {
        return Err(Lack::Short);
    }
    Err(Lack::Misfit)
}

// A subsection's line: the first number and the count.
pub fn subsection_line(at: Lexer<'_>) -> Result<((u64, u64), usize), Lack>
    ensures is { Takes (λ x. x) sub_line at.entry.src.now at.entry.place result }
    ensures small { BothBelow (10 ^ 10) result }
{
    let (first, digits_end) = digits(at)?;
    let gap_end = exact(at.to(digits_end), b" ")?;
    let (count, count_end) = digits(at.to(gap_end))?;
    let end = eol(at.to(count_end))?;
    Ok(((first, count), end))
}

// A line whose number has to be `n`.
pub fn number_line(n: u64, at: Lexer<'_>) -> Result<usize, Lack>
    ensures { Passes (number_line n) at.entry.src.now at.entry.place result }
{
    let (number, digits_end) = digits(at)?;
    let end = eol(at.to(digits_end))?;
    if number != n {
        return Err(Lack::Misfit);
    }
    Ok(end)
}
