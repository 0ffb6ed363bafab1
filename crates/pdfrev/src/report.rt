// What the short commands print.
use crate::changes::write_changes;
use crate::failure::Failure;
use book::book::Book;
use records::open::SECTION_BYTES;
use reports::differences::differences;
use std::alloc::Global;
use std::io::Write;
use stores::store::Store;

// The most bytes that an object has: it is read through the window that a section is read through.
const OBJECT_BYTES: usize = SECTION_BYTES;

pub fn accepted<S: Store, W: Write>(book: &Book<S>, out: &mut W) -> Result<(), Failure> {
    let count = book.revisions()?;
    let ending = if count == 1 { "" } else { "s" };
    writeln!(out, "accepted: {count} revision{ending}")?;
    Ok(())
}

// Writes the body of the number n in revision k, and answers its generation. Here, in `diff` and in `table::list`, memory, book and `out` go in beside the
// numbers: a struct of the three would be made at three arms of `answer`, each time for one call.
pub fn show<S: Store, W: Write>(
    heap: Global,
    book: &Book<S>,
    k: usize,
    n: usize,
    out: &mut W,
) -> Result<u32, Failure> {
    let mut body = vec![in heap; 0u8; OBJECT_BYTES]?;
    let (generation, length) = book.fetch(k, n, body.as_mut_slice())?;
    body.truncate(length);
    out.write_all(body.as_slice())?;
    Ok(generation)
}

pub fn diff<S: Store, W: Write>(
    heap: Global,
    book: &Book<S>,
    j: usize,
    k: usize,
    out: &mut W,
) -> Result<(), Failure> {
    let changes = differences(heap, book, j, k)?;
    if changes.is_empty() {
        out.write_all(b"nothing changed")?;
    } else {
        write_changes(heap, changes.as_slice(), out)?;
    }
    out.write_all(b"\n")?;
    Ok(())
}
