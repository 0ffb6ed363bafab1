// The command line tool for records: one PDF file that carries every revision.
#![tactic(auto)]

mod changes;
mod failure;
mod files;
mod help;
mod report;
mod table;

use failure::Failure;
use files::{extract, open};
use help::USAGE;
use report::{accepted, diff, show};
use reports::command::{Command, parse};
use std::env;
use std::io::{BufWriter, Write};
use table::list;

// Any error ends the program with status 1, after it was told on the standard error.
fn main(rt: HostRuntime) -> Result<(), ()> {
    run(&rt).map_err(|failure| {
        let _ = failure.tell(&rt);
    })
}

fn run(rt: &HostRuntime) -> Result<(), Failure> {
    let words: Vec<String> = env::args(rt)?.skip(1).collect(rt.alloc())?;
    answer(rt, parse(words.as_slice())?)
}

fn answer(rt: &HostRuntime, command: Command<'_>) -> Result<(), Failure> {
    let heap = rt.alloc();
    let mut out = BufWriter::new(heap, rt.stdout())?;
    match command {
        Command::Help => out.write_all(USAGE)?,
        Command::List { file } => {
            let book = open(rt, file)?;
            list(heap, &book, &mut out)?;
        }
        Command::Check { file } => {
            let book = open(rt, file)?;
            accepted(&book, &mut out)?;
        }
        Command::Show {
            file,
            revision,
            number,
        } => {
            let book = open(rt, file)?;
            let generation = show(heap, &book, revision, number, &mut out)?;
            eprintln!(rt; "generation {generation}")?;
        }
        Command::Extract {
            file,
            revision,
            out: path,
        } => {
            let book = open(rt, file)?;
            let length = extract(rt, &book, revision, path)?;
            writeln!(out, "{path}: {length} bytes, revision {revision} of {file}")?;
        }
        Command::Diff {
            file,
            earlier,
            later,
        } => {
            let book = open(rt, file)?;
            diff(heap, &book, earlier, later, &mut out)?;
        }
    }
    out.flush()?;
    Ok(())
}
