// Opening a file: length, header and tail; each section, the newest first; each revision, the oldest first.
ghost use Rattle.std.specs.Prelude.{◌≡◌, List, []};
ghost use Rattle.format.specs.Chain.{Link};
ghost use Rattle.format.specs.Revisions.{header_fits};
ghost use Rattle.format.specs.Sections.{last_offset};
ghost use Rattle.records.specs.Chained.{LinkedFrom, Opens, RevisionsRead};
ghost use Rattle.records.specs.Tabled.{Tabled, cells_held, revisions_held};
ghost use Rattle.records.specs.Trailers.{offsets_in};

use crate::revision::read_revision;
use crate::revision_tables::Tables;
use crate::scratch::Scratch;
use crate::window::{WINDOW_BYTES, Window};
use faults::fault::Fault;
use faults::layer::Layer;
use faults::reason::Reason;
use opening::header::header_fits;
use opening::last::last_offset;
use stores::store::{LONGEST, Store};

// The most bytes of a file, and of a section, which is read through one window.
pub const FILE_BYTES: usize = LONGEST;

pub const SECTION_BYTES: usize = WINDOW_BYTES;

// The bytes of a header, and the most of a tail.
const HEADER_BYTES: usize = 8;

const TAIL_BYTES: usize = 31;

// The store and the window are two values, here and below: the store is only looked at, and the window is part of the memory for reading.
fn has_header<S: Store>(store: &S, window: &mut Window) -> bool
    ensures { result ≡ header_fits (S.Store.meaning store.now).bytes }
{
    window.fill(store, 0, HEADER_BYTES);
    header_fits(window.seen())
}

// The offset of the newest section, which the file's tail gives.
fn newest_offset<S: Store>(store: &S, window: &mut Window) -> Option<u64>
    ensures { result ≡ last_offset (S.Store.meaning store.now).bytes }
{
    window.fill(store, store.len().saturating_sub(TAIL_BYTES), TAIL_BYTES);
    last_offset(window.seen())
}

// Reads the revisions of the sections whose offsets are held, the oldest first, into tables that are empty. The memory for reading and the tables are
// two values: every question is asked of the tables alone, which stand when reading is over.
fn read_revisions<S: Store>(
    store: &S,
    scratch: &mut Scratch,
    tables: &mut Tables,
) -> Result<(), Fault>
    requires revisions { revisions_held tables.old ≡ [] }
    requires cells { cells_held tables.old ≡ [] }
    ensures is { (ls : List Link) → LinkedFrom (S.Store.meaning store.now).bytes 0 ls (offsets_in scratch.old) → RevisionsRead (S.Store.meaning store.now).bytes ls (revisions_held tables.new) (cells_held tables.new) result }
    ensures tabled { Tabled (revisions_held tables.new) (cells_held tables.new) }
{
    // Each offset is taken out of the memory first, since reading its revision needs the rest of it.
    while let Some(offset) = scratch.offsets.pop() {
        read_revision(store, scratch, tables, offset)?;
    }
    Ok(())
}

// Opens the file that lies in the store: its tables are held then, and no others. The answer is how many revisions it has.
pub fn open_file<S: Store>(
    store: &S,
    scratch: &mut Scratch,
    tables: &mut Tables,
) -> Result<usize, Fault>
    ensures is { Opens (S.Store.meaning store.now).bytes (revisions_held tables.new) (cells_held tables.new) result }
    ensures tabled { Tabled (revisions_held tables.new) (cells_held tables.new) }
{
    tables.clear();
    let length = store.len();
    if length > FILE_BYTES {
        return Err(Fault::met(Reason::FileBound, Layer::Chain, 0));
    }
    if !has_header(store, &mut scratch.window) {
        return Err(Fault::met(Reason::NoHeader, Layer::Chain, 0));
    }
    let Some(newest) = newest_offset(store, &mut scratch.window) else {
        return Err(Fault::met(Reason::NoTail, Layer::Chain, length));
    };
    // there is no `From` of `u64` for `usize`, and `try_from` would answer an error that never comes
    scratch.walk(store, newest as usize, length)?;
    read_revisions(store, scratch, tables)?;
    Ok(tables.len())
}
