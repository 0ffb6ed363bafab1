// Opening the record.
ghost use Rattle.std.specs.Prelude.{◌≡◌};
ghost use Rattle.format.specs.Book.{open_file};
ghost use Rattle.book.specs.declared.call.Phase.TheVariants.{Shut};
ghost use Rattle.book.specs.Books.{Performs};

use super::Book;
use crate::call::Phase;
use faults::fault::Fault;
use records::open::open_file;
use stores::store::Store;

impl<S: Store> Book<S> {
    // Reads the record's revisions into the tables.
    pub(super) fn read_in(&mut self) -> Result<(), Fault>
        requires { self.old.phase ≡ Shut }
        ensures { Performs S.Store.meaning self.old open_file result self.new }
    {
        open_file(
            &self.store,
            &mut self.memory.scratch,
            &mut self.memory.tables,
        )?;
        self.phase = Phase::Standing;
        Ok(())
    }
}
