// Bodies: an object, or a stream.
ghost use Rattle.std.specs.Prelude.{◌≡◌, ◌<◌, ◌≤◌, length, drop, IfOk};
ghost use Rattle.format.specs.Frames.{body_at, starts_loose, body_fault};
ghost use Rattle.objects.specs.Bodies.{length_in, StreamWord, rest_got, fault_in};
ghost use Rattle.objects.specs.Steps.{placed, bare, rest_of};

use crate::place::lexer_at;
use crate::read::{find_value, read_array, read_dictionary};
use crate::reading::Reading;
use crate::shape::Shape;
use crate::start::{Start, start_of};
use crate::stream::{stream_data, stream_line};
use crate::tokens::is_word;
use faults::fault::Fault;
use faults::layer::Layer;
use faults::reason::Reason;
use lexer::bytes::is_white;
use lexer::reader::Lexer;

// The Length among the entries from `first` on, if it is a direct integer from 0 up.
fn length_in(first: Lexer<'_>) -> Option<usize>
    ensures { result ≡ length_in first.entry.src.now first.entry.place }
{
    match find_value(first, None, b"Length", 31)?.shape {
        Shape::Integer(z) => usize::try_from(z).ok(),
        _ => None,
    }
}

// The rest of a stream from behind its word on, given the Length of its dictionary: the place behind `endstream`.
fn stream_rest(at: Lexer<'_>, word: usize, len: Option<usize>) -> Result<usize, Fault>
    ensures is { placed at.entry.src.now result ≡ rest_got len word at.entry.place (rest_of at.entry) }
    ensures within { IfOk result (λ q. (at.entry.place < q) × (q ≤ length at.entry.src.now)) }
{
    let len = len.ok_or(Fault::met(Reason::BadFrame, Layer::Object, word))?;
    let start = stream_line(at)?;
    stream_data(at.to(start), len)
}

// The place of the word `stream`, if it stands next, and the place behind it.
fn stream_word(at: Lexer<'_>) -> Option<(usize, usize)>
    ensures { StreamWord at.entry.src.now at.entry.place result }
{
    let found = at.token().ok()?;
    is_word(found.token, b"stream").then_some((found.from, found.to))
}

// The object or stream that stands next: the place behind it.
pub(crate) fn read_body(at: Lexer<'_>) -> Result<usize, Fault>
    ensures is { placed at.entry.src.now result ≡ bare (body_at at.entry.place (rest_of at.entry)) }
    ensures within { IfOk result (λ q. (at.entry.place < q) × (q ≤ length at.entry.src.now)) }
{
    match start_of(at)? {
        Start::Whole(extent) => Ok(extent.end),
        Start::Array { inside, .. } => read_array(at.to(inside), Reading::checked(31)),
        Start::Dictionary { inside, .. } => {
            let first = at.to(inside);
            let end = read_dictionary(first, Reading::checked(31))?;
            match stream_word(at.to(end)) {
                Some((word, behind)) => stream_rest(at.to(behind), word, length_in(first)),
                None => Ok(end),
            }
        }
    }
}

// The object or stream at `from`: the place behind it.
pub fn body_at(src: &[u8], from: usize) -> Result<usize, Fault>
    ensures is { placed src.now result ≡ bare (body_at from (drop from src.now)) }
    ensures within { IfOk result (λ q. (from < q) × (q ≤ length src.now)) }
{
    read_body(lexer_at(src, from)?)
}

// Whether white space or a comment stands first.
fn starts_loose(src: &[u8]) -> bool
    ensures { result ≡ starts_loose src.now }
{
    src.first().is_some_and(|b| is_white(*b) || *b == b'%')
}

// What refuses a body that is put: it is one object or stream, from its first byte to its last.
pub fn check_body(src: &[u8]) -> Result<(), Fault>
    ensures { fault_in result ≡ body_fault src.now }
{
    if starts_loose(src) {
        return Err(Fault::met(Reason::OutsideBody, Layer::Object, 0));
    }
    let end = read_body(Lexer::new(src))?;
    if end < src.len() {
        return Err(Fault::met(Reason::OutsideBody, Layer::Object, end));
    }
    Ok(())
}
