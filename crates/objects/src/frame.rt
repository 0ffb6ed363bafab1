// An object in the file, in a window of bytes that starts where it does.
ghost use Rattle.std.specs.Prelude.{◌≡◌, ◌+◌, ◌^◌, ◌<◌, ◌≤◌, false, length, IfOk};
ghost use Rattle.format.specs.Space.{skip};
ghost use Rattle.format.specs.Frames.{the_int, the_word, framed_body, frame};
ghost use Rattle.objects.specs.Framing.{int_got, framed, head_of, Ordered, moved_frame, framed_at, FrameLies};
ghost use Rattle.objects.specs.Steps.{placed, token_in, rest_of};

use crate::body::read_body;
use crate::later::later_fault;
use crate::tokens::{is_word, misplaced};
use faults::fault::Fault;
use faults::layer::Layer;
use faults::reason::Reason;
use lexer::reader::Lexer;
use lexer::token::Token;

// An object in the file: its number, its generation, its body from its start to its end, and the place behind `endobj`.
#[derive(Clone, Copy, Debug, PartialEq, Eq)]
pub struct Frame {
    pub number: u32,
    pub generation: u32,
    pub start: usize,
    pub end: usize,
    pub behind: usize,
}

impl Frame {
    // The same frame with every place later by `base`.
    fn later(self, base: usize) -> Frame
        requires { (base + self.start < 2 ^ 64) × ((base + self.end < 2 ^ 64) × (base + self.behind < 2 ^ 64)) }
        ensures { result ≡ moved_frame base self }
    {
        Frame {
            start: base + self.start,
            end: base + self.end,
            behind: base + self.behind,
            ..self
        }
    }
}

// An integer without a sign, which has to stand next, and the place behind it.
fn the_int(at: Lexer<'_>) -> Result<(u32, usize), Fault>
    ensures is { int_got at.entry.src.now result ≡ the_int (token_in at.entry.src.now at.entry.place) }
    ensures within { IfOk result (λ x. x.1 ≤ length at.entry.src.now) }
{
    let found = at.token()?;
    match found.token {
        Token::Unsigned(n) => Ok((n, found.to)),
        _ => Err(misplaced(found, Reason::BadFrame)),
    }
}

// A word, which has to stand next: the place behind it.
fn the_word(at: Lexer<'_>, word: &[u8]) -> Result<usize, Fault>
    ensures is { placed at.entry.src.now result ≡ the_word word.now (token_in at.entry.src.now at.entry.place) }
    ensures within { IfOk result (λ q. (at.entry.place ≤ q) × (q ≤ length at.entry.src.now)) }
{
    let found = at.token()?;
    if !is_word(found.token, word) {
        return Err(misplaced(found, Reason::BadFrame));
    }
    Ok(found.to)
}

// The body behind `obj`, and `endobj`.
// Number and generation are two arguments, since each comes when it is read: `frame_rest` has the number alone.
fn frame_body(at: Lexer<'_>, number: u32, generation: u32) -> Result<Frame, Fault>
    ensures is { framed at.entry.src.now result ≡ framed_body number generation (skip false at.entry.place (rest_of at.entry)) }
    ensures within { IfOk result (Ordered (length at.entry.src.now)) }
{
    let start = at.skip_space();
    let end = read_body(at.to(start))?;
    let behind = the_word(at.to(end), b"endobj")?;
    Ok(Frame {
        number,
        generation,
        start,
        end,
        behind,
    })
}

// The generation, `obj`, the body and `endobj`, behind the number.
fn frame_rest(at: Lexer<'_>, number: u32) -> Result<Frame, Fault>
    ensures is { framed at.entry.src.now result ≡ head_of number at.entry.place (rest_of at.entry) }
    ensures within { IfOk result (Ordered (length at.entry.src.now)) }
{
    let (generation, next) = the_int(at)?;
    let inside = the_word(at.to(next), b"obj")?;
    frame_body(at.to(inside), number, generation)
}

// The object whose number stands at the first byte: places count from there.
pub fn read_frame(src: &[u8]) -> Result<Frame, Fault>
    ensures is { framed src.now result ≡ frame 0 src.now }
    ensures within { IfOk result (Ordered (length src.now)) }
{
    let at = Lexer::new(src);
    if at.skip_space() != 0 {
        return Err(Fault::met(Reason::BadFrame, Layer::Object, 0));
    }
    let (number, next) = the_int(at)?;
    frame_rest(at.to(next), number)
}

// The object whose number stands at the first byte, which stands at the place `base` of the file: places count in the file.
// That they can is asked of the caller: `View` of `opening`, which has this fact, lies above this crate.
pub fn read_frame_at(base: usize, src: &[u8]) -> Result<Frame, Fault>
    requires { base + length src.now < 2 ^ 64 }
    ensures is { framed_at base src.now result ≡ frame base src.now }
    ensures within { IfOk result (FrameLies base (length src.now)) }
{
    let frame = read_frame(src).map_err(|fault| later_fault(base, fault))?;
    Ok(frame.later(base))
}
