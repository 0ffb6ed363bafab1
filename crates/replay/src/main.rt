// The test bench: runs the commands of the standard input, a line each, and answers each by a line.
#![tactic(auto)]

mod answer;
mod bench;
mod calls;
mod command;
mod hex;
mod lines;
mod pile;
mod readings;
mod sort;
mod trouble;
mod words;

use answer::{Setback, write_answer};
use bench::Bench;
use lines::{Next, next_line};
use std::io;
use std::io::{BufReader, BufWriter, Write};
use trouble::Trouble;

fn main(rt: HostRuntime) -> io::Result<()> {
    let heap = rt.alloc();
    let mut bench = Bench::new(heap);
    let mut input = BufReader::new(heap, rt.stdin())?;
    let mut output = BufWriter::new(heap, rt.stdout())?;
    let mut line = Vec::new(heap);
    // Nothing says that the input ends, so the lines are counted.
    for _ in 0..u64::MAX {
        // Whoever waits for an answer before the next command gets it.
        if input.buffer().is_empty() {
            output.flush()?;
        }
        let answer = match next_line(&mut input, &mut line)? {
            Next::End => break,
            Next::TooLong => Err(Setback::Trouble(Trouble::NoMemory)),
            Next::Line => bench.answer(line.as_slice()),
        };
        write_answer(&answer, &mut output)?;
    }
    output.flush()
}
