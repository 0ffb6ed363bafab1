// Reading one line.
ghost use Rattle.std.specs.Prelude.{◌≡◌, ℕ, ◌<◌, ◌≤◌, length, codes, ◌≢◌, slice_index};
ghost use Rattle.std.specs.Option.{option_map};
ghost use Rattle.format.specs.Frames.{behind};
ghost use Rattle.scripts.specs.Lines.{body_line_of, head_of, number_of, put_of};

use crate::error::Mistake;
use crate::line::{BodyLine, Head};
use lexer::reader::Lexer;
use opening::lines::digits;

// How many bytes stand before the first LF.
pub fn line_length(bytes: &[u8]) -> usize
    ensures within { result ≤ length bytes.now }
    ensures before { (k : ℕ) → k < result → slice_index bytes.now k ≢ 10 }
    ensures found { result < length bytes.now → slice_index bytes.now result ≡ 10 }
{
    bytes
        .iter()
        .position(|b| *b == b'\n')
        .unwrap_or(bytes.len())
}

// The number that a text of one to ten digits spells.
fn number(text: &[u8]) -> Option<u64>
    ensures { result ≡ number_of text.now }
{
    let (n, end) = digits(Lexer::new(text)).ok()?;
    (end == text.len()).then_some(n)
}

// What follows a word, where the line begins with it.
fn after<'a>(line: &'a [u8], word: &[u8]) -> Option<&'a [u8]>
    ensures { option_map (λ x. x.now) result ≡ behind word.now line.now }
{
    line.strip_prefix(word)
}

// What a line says that begins with `put ` or `remove `.
fn change_head(line: &[u8]) -> Result<Head, Mistake>
    ensures { result ≡ put_of line.now (behind (codes "put ") line.now) }
{
    if let Some(text) = after(line, b"put ") {
        number(text).map(Head::Put).ok_or(Mistake::BadNumber)
    } else if let Some(text) = after(line, b"remove ") {
        number(text).map(Head::Remove).ok_or(Mistake::BadNumber)
    } else {
        Err(Mistake::NoChange)
    }
}

// What a line between changes says: nothing, where it is empty or a comment.
pub fn head(line: &[u8]) -> Result<Option<Head>, Mistake>
    ensures { result ≡ head_of line.now }
{
    match line {
        [] | [b'#', ..] => Ok(None),
        _ => change_head(line).map(Some),
    }
}

// What a line of a body is.
#[tactic(auto, using(crate::proofs::Words::dots_empty, crate::proofs::Words::dots_none, crate::proofs::Words::dots_end, crate::proofs::Words::dots_two, crate::proofs::Words::dots_single))]
pub fn body_line(line: &[u8]) -> Result<BodyLine, Mistake>
    ensures { result ≡ body_line_of line.now }
{
    match line {
        [b'.'] => Ok(BodyLine::End),
        [b'.', b'.', ..] => Ok(BodyLine::Text),
        [b'.', ..] => Err(Mistake::SingleDot),
        _ => Ok(BodyLine::Text),
    }
}
