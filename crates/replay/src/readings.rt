// What is read in given bytes. The heap is lent beside the bytes: the one is the bench's, the others a part of a command.
ghost use Rattle.replay.specs.Readings.{BodyTold, ReadAs, TokensTold};

use crate::answer::{Answer, Setback, Value, plain};
use crate::command::Reading;
use crate::sort::Sort;
use crate::trouble::Trouble;
use lexer::reader::Lexer;
use objects::body::check_body;
use objects::frame::read_frame_at;
use objects::object::object_at;
use std::alloc::Global;
use stores::store::LONGEST;

pub fn answer(heap: Global, reading: &Reading) -> Answer
    ensures { ReadAs reading.now result }
{
    match reading {
        Reading::Tokens(bytes) => tokens(heap, bytes.as_slice()),
        Reading::Object(bytes) => object(heap, bytes.as_slice()),
        Reading::Body(bytes) => body(heap, bytes.as_slice()),
        Reading::Frame { place, bytes } => frame(heap, *place, bytes.as_slice()),
    }
}

// All tokens, from the start to the end.
fn tokens(heap: Global, src: &[u8]) -> Answer
    ensures { TokensTold src.now result }
{
    let mut values = Vec::new(heap);
    let mut lexer = Lexer::new(src);
    loop {
        let found = lexer.next()?;
        let Some(sort) = Sort::of(found.token) else {
            return Ok(values);
        };
        values.push(Value::Token {
            sort,
            from: found.from,
            to: found.to,
        })?;
    }
}

// Numbers as the values of an answer.
fn numbers(heap: Global, all: &[usize]) -> Answer {
    Ok(all.iter().map(|n| Value::Number(*n)).collect(heap)?)
}

// The place behind the object at the start.
fn object(heap: Global, src: &[u8]) -> Answer {
    let extent = object_at(src, 0)?;
    numbers(heap, &[extent.end])
}

// Whether the bytes may be put as a body.
fn body(heap: Global, src: &[u8]) -> Answer
    ensures { BodyTold src.now result }
{
    plain(heap, check_body(src).map_err(Setback::Fault))
}

// The object in the file that starts with the bytes, with places counted from `place`.
fn frame(heap: Global, place: usize, src: &[u8]) -> Answer {
    // A file has no more bytes.
    if place > LONGEST {
        return Err(Setback::Trouble(Trouble::BadPlace));
    }
    let read = read_frame_at(place, src)?;
    // `as`: there is no `From` from u32 to usize, and `try_from` would answer an error that never comes.
    numbers(
        heap,
        &[
            read.number as usize,
            read.generation as usize,
            read.start,
            read.end,
        ],
    )
}
