// The table of the revisions.
use crate::changes::write_changes;
use crate::failure::Failure;
use book::book::Book;
use reports::differences::differences;
use std::alloc::Global;
use std::io::Write;
use stores::store::Store;

// A line for each revision: its own bytes, where it ends, its Size, how many objects are in use, and what changed against the revision before.
pub fn list<S: Store, W: Write>(heap: Global, book: &Book<S>, out: &mut W) -> Result<(), Failure> {
    out.write_all(b"revision  own bytes  ends at  Size  in use  objects\n")?;
    let count = book.revisions()?;
    let mut start = 0;
    // the book answers by the revision's number and lends no list
    for before in 0..count {
        let k = before + 1;
        let listing = book.list(k)?;
        let end = listing.end;
        let own = end.saturating_sub(start);
        let size = listing.size;
        let used = listing.in_use;
        write!(out, "{k:>8}  {own:>9}  {end:>7}  {size:>4}  {used:>6}  ")?;
        if before == 0 {
            out.write_all(b"the first")?;
        } else {
            let changes = differences(heap, book, before, k)?;
            write_changes(heap, changes.as_slice(), out)?;
        }
        out.write_all(b"\n")?;
        start = end;
    }
    Ok(())
}
