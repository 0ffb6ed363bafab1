// The lines of an input, by bytes.
use std::io;
use std::io::{BufRead, ErrorKind};

// What came of reading a line: one answer of three, and none of them an error.
#[derive(Clone, Copy)]
pub enum Next {
    // The line is in the buffer, without its end.
    Line,
    // The memory did not suffice, and the line is passed over.
    TooLong,
    // The input is at its end.
    End,
}

// Reads the next line into the buffer, in place of what it held.
pub fn next_line<R: BufRead>(input: &mut R, line: &mut Vec<u8>) -> io::Result<Next> {
    line.clear();
    // No `?`: the error's kind decides, since out of memory is a state of the line and the input is read on behind it.
    match input.read_until(b'\n', line) {
        Ok(0) => Ok(Next::End),
        Ok(_) => {
            if line.last() == Some(&b'\n') {
                line.pop();
            }
            Ok(Next::Line)
        }
        Err(e) if e.kind() == ErrorKind::OutOfMemory => {
            pass_line(input, line)?;
            Ok(Next::TooLong)
        }
        Err(e) => Err(e),
    }
}

// Reads to the end of the line, part by part. Nothing says that the input ends, so the parts are counted.
fn pass_line<R: BufRead>(input: &mut R, part: &mut Vec<u8>) -> io::Result<()> {
    for _ in 0..u64::MAX {
        part.clear();
        // No `?`, as above: out of memory, the next part is read.
        match input.read_until(b'\n', part) {
            Ok(_) => break,
            Err(e) if e.kind() == ErrorKind::OutOfMemory => {}
            Err(e) => return Err(e),
        }
    }
    Ok(())
}
