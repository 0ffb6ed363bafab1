// Committing the open update.
ghost use Rattle.std.specs.Prelude.{◌≡◌, false};
ghost use Rattle.format.specs.Book.{commit, decide_commit};
ghost use Rattle.book.specs.declared.call.Phase.TheVariants.{Updating};
ghost use Rattle.book.specs.Books.{Performs, update_in};
ghost use Rattle.book.specs.Drafted.{Drafted, Drafts};

use super::Book;
use crate::call::Phase;
use crate::rows::{cells_of, last_row};
use faults::fault::Fault;
use faults::reason::Reason;
use records::open::{FILE_BYTES, SECTION_BYTES};
use records::revision::read_revision;
use records::revision_tables::{MOST_REVISIONS, MOST_SIZE};
use records::trailer::read_trailer;
use stores::store::Store;
use writer::newest::Newest;

impl<S: Store> Book<S> {
    // Writes the open update behind the file, all or nothing, and reads it back into the tables.
    pub(super) fn write(&mut self) -> Result<(), Fault>
        requires { self.old.phase ≡ Updating }
        ensures { Performs S.Store.meaning self.old (commit false) result self.new }
    {
        let objects = self.draft();
        self.check_commit(objects)?;
        let offset = self.store.len() + objects;
        // both proved accepted: every check of the update was made
        let _ = self.store.append(self.memory.writer.as_slice());
        let _ = read_revision(
            &self.store,
            &mut self.memory.scratch,
            &mut self.memory.tables,
            offset,
        );
        self.phase = Phase::Standing;
        Ok(())
    }

    // Lays the bytes of the open update down in the writer's memory, and answers how many of them are its objects.
    fn draft(&mut self) -> usize
        requires { self.old.phase ≡ Updating }
        ensures { Drafts S.Store.meaning self.old result self.new }
    {
        let row = last_row(self.memory.tables.revisions());
        let Ok(inside) = read_trailer(&self.store, &mut self.memory.scratch, row.offset) else {
            unreachable()
        };
        let cells = cells_of(self.memory.tables.cells(), row);
        let newest = Newest {
            cells,
            len: self.store.len(),
            offset: row.offset,
            window: self.memory.scratch.seen(),
            inside,
        };
        self.memory.writer.write(&self.memory.held, &newest)
    }

    // Whether the update that was laid down may be committed: every check, and nothing is changed.
    fn check_commit(&self, objects: usize) -> Result<(), Fault>
        requires updating { self.now.phase ≡ Updating }
        requires drafted { Drafted S.Store.meaning self.now objects }
        ensures { result ≡ decide_commit (S.Store.meaning self.now.store) (update_in self.now) }
    {
        if self.memory.held.len() == 0 {
            return Err(Fault::refused(Reason::NoChanges, 0));
        }
        let row = last_row(self.memory.tables.revisions());
        let added = self.memory.writer.len();
        if self.memory.tables.len() >= MOST_REVISIONS {
            return Err(Fault::refused(Reason::PastLimits, 0));
        }
        if row.size + self.memory.held.new_numbers(row.size) > MOST_SIZE {
            return Err(Fault::refused(Reason::PastLimits, 0));
        }
        if added > FILE_BYTES - self.store.len() {
            return Err(Fault::refused(Reason::PastLimits, 0));
        }
        if added - objects > SECTION_BYTES {
            return Err(Fault::refused(Reason::PastLimits, 0));
        }
        if added > self.store.space() {
            return Err(Fault::refused(Reason::NoSpace, 0));
        }
        Ok(())
    }
}
