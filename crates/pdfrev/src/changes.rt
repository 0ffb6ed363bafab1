// The numbers that were added, changed and withdrawn, in words.
use crate::failure::Failure;
use book::book::compare::Difference;
use reports::differences::{Change, numbers_of};
use reports::runs::{Run, runs};
use std::alloc::Global;
use std::io;
use std::io::Write;

// A kind of change, and its word.
const KINDS: [(Difference, &str); 3] = [
    (Difference::Added, "added"),
    (Difference::Changed, "changed"),
    (Difference::Withdrawn, "withdrawn"),
];

// `added 7-9, changed 2 4`; nothing where nothing changed.
pub fn write_changes<W: Write>(
    heap: Global,
    changes: &[Change],
    out: &mut W,
) -> Result<(), Failure> {
    let mut between = "";
    for (kind, word) in KINDS {
        let numbers = numbers_of(heap, changes, kind)?;
        if numbers.is_empty() {
            continue;
        }
        let all = runs(heap, numbers.as_slice())?;
        write!(out, "{between}{word}")?;
        write_runs(all.as_slice(), out)?;
        between = ", ";
    }
    Ok(())
}

fn write_runs<W: Write>(all: &[Run], out: &mut W) -> io::Result<()> {
    for Run { first, last } in all {
        if first == last {
            write!(out, " {first}")?;
        } else {
            write!(out, " {first}-{last}")?;
        }
    }
    Ok(())
}
