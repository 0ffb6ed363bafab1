// Going back to an older revision.
ghost use Rattle.std.specs.Prelude.{◌≡◌};
ghost use Rattle.format.specs.Book.{back};
ghost use Rattle.book.specs.declared.call.Phase.TheVariants.{Standing};
ghost use Rattle.book.specs.Books.{Performs};

use super::Book;
use crate::rows::{cells_end, row_of};
use faults::fault::Fault;
use faults::reason::Reason;
use stores::store::Store;

impl<S: Store> Book<S> {
    // Cuts the file at the end of revision k, and the tables behind its row.
    pub(super) fn cut_back(&mut self, k: usize) -> Result<(), Fault>
        requires { self.old.phase ≡ Standing }
        ensures { Performs S.Store.meaning self.old (back k) result self.new }
    {
        let Some(row) = row_of(self.memory.tables.revisions(), k) else {
            return Err(Fault::refused(Reason::NoRevision, 0));
        };
        let cells = cells_end(self.memory.tables.cells(), row);
        // proved accepted: every revision ends within the file
        let _ = self.store.cut(row.end);
        self.memory.tables.cut(k, cells);
        Ok(())
    }
}
