// What the calls of an open update do.
// The phase that each asks for is a clause and no type of its own: by a rule of the project one method (`perform`) matches the book's own state
// and the call together and changes the state in place. So the state is a value in the book, and that match is where the clause comes from.
// The newest row and its cells are asked for by the same two lines in both that hold a change. A method for the two would serve these alone: it lends
// the whole book, and `draft` reads by the book's own memory between them and writes into it while the cells are looked at.
ghost use Rattle.std.specs.Prelude.{◌≡◌, false, Ok};
ghost use Rattle.format.specs.Book.{abandon, begin, put, remove};
ghost use Rattle.book.specs.declared.call.Phase.TheVariants.{Standing, Updating};
ghost use Rattle.book.specs.Books.{Performs};

use super::Book;
use crate::call::Phase;
use crate::rows::{cells_of, last_row};
use faults::fault::Fault;
use stores::store::Store;
use writer::decisions::{decide_put, decide_remove};

impl<S: Store> Book<S> {
    // Opens an update with no changes.
    pub(super) fn start(&mut self)
        requires { self.old.phase ≡ Standing }
        ensures { Performs S.Store.meaning self.old begin (Ok tt) self.new }
    {
        self.memory.held.clear();
        self.phase = Phase::Updating;
    }

    // Drops the changes.
    pub(super) fn let_go(&mut self)
        requires { self.old.phase ≡ Updating }
        ensures { Performs S.Store.meaning self.old (abandon false) (Ok tt) self.new }
    {
        self.phase = Phase::Standing;
    }

    // Holds a body for a number.
    pub(super) fn hold_body(&mut self, number: usize, body: &[u8]) -> Result<(), Fault>
        requires { self.old.phase ≡ Updating }
        ensures { Performs S.Store.meaning self.old (put false number body.now) result self.new }
    {
        let row = last_row(self.memory.tables.revisions());
        let cells = cells_of(self.memory.tables.cells(), row);
        decide_put(cells, &self.memory.held, number, body)?;
        self.memory.held.put(number, body);
        Ok(())
    }

    // Holds the removal of a number.
    pub(super) fn hold_removal(&mut self, number: usize) -> Result<(), Fault>
        requires { self.old.phase ≡ Updating }
        ensures { Performs S.Store.meaning self.old (remove false number) result self.new }
    {
        let row = last_row(self.memory.tables.revisions());
        let cells = cells_of(self.memory.tables.cells(), row);
        decide_remove(cells, row.root, &self.memory.held, number)?;
        self.memory.held.remove(number);
        Ok(())
    }
}
