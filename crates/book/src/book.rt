// The book.
ghost use Rattle.book.specs.Keeps.{SoundOf, SoundOf-prop};

use crate::call::Phase;
use records::revision_tables::Tables;
use records::scratch::Scratch;
use stores::store::Store;
use writer::held::Held;
use writer::update::Writer;

mod backward;
mod calls;
mod commit;
pub mod compare;
mod making;
mod perform;
pub mod questions;
mod reading;
mod updates;

// The memory of a book, taken before it is made.
#[derive(Drop)]
pub struct Memory {
    tables: Tables,
    scratch: Scratch,
    held: Held,
    writer: Writer,
}

// A book is put round a store: it opens the record that lies there, answers questions about every revision, and changes the record by updates.
// Its tables are those of its store's bytes, and an open update is acceptable on the newest revision: nothing is asked of a caller.
#[derive(Drop)]
pub struct Book<S: Store> {
    store: S,
    phase: Phase,
    memory: Memory,
    pub ghost sound: { SoundOf S.Store.meaning store phase memory } by { SoundOf-prop S.Store.meaning store phase memory },
}
