// The questions to a book. They show committed revisions, and change nothing.
ghost use Rattle.std.specs.Prelude.{◌≡◌};
ghost use Rattle.format.specs.Questions.{ask_count, ask_list, is_shut};
ghost use Rattle.book.specs.Books.{cells_in, moment_of, revisions_in};
ghost use Rattle.book.specs.Asked.{Draws, Fetches, RowAsked, listed};

use super::Book;
use crate::call::Phase;
use crate::copies::{body_into, join};
use crate::rows::{body_of, cells_of, row_of, used_in};
use entries::revision::Revision;
use faults::fault::Fault;
use faults::reason::Reason;
use stores::store::Store;

// What list answers of a revision: where its section starts, where it ends, its Size, and how many numbers are in use.
#[derive(Clone, Copy, Debug, PartialEq, Eq)]
pub struct Listing {
    pub offset: usize,
    pub end: usize,
    pub size: usize,
    pub in_use: usize,
}

impl<S: Store> Book<S> {
    // How many revisions there are.
    pub fn revisions(&self) -> Result<usize, Fault>
        ensures { result ≡ ask_count (moment_of S.Store.meaning self.now) }
    {
        if self.is_shut() {
            return Err(Fault::refused(Reason::BookShut, 0));
        }
        Ok(self.memory.tables.revisions().len())
    }

    // Where revision k's section starts, where it ends, its Size, and how many numbers are in use.
    pub fn list(&self, k: usize) -> Result<Listing, Fault>
        ensures { listed result ≡ ask_list (moment_of S.Store.meaning self.now) k }
    {
        let row = self.row(k, 0)?;
        let in_use = used_in(cells_of(self.memory.tables.cells(), row));
        Ok(Listing {
            offset: row.offset,
            end: row.end,
            size: row.size,
            in_use,
        })
    }

    // The generation and the body's length of the number n in revision k; the body fills the start of the buffer, and the rest keeps its bytes.
    pub fn fetch(&self, k: usize, n: usize, buffer: &mut [u8]) -> Result<(u32, usize), Fault>
        ensures { Fetches (moment_of S.Store.meaning self.now) k n buffer.old result buffer.new }
    {
        let row = self.row(k, n)?;
        let own = cells_of(self.memory.tables.cells(), row);
        let Some(body) = body_of(own, n) else {
            return Err(Fault::refused(Reason::NotInUse, n));
        };
        let length = body_into(&self.store, body, n, buffer)?;
        Ok((body.generation, length))
    }

    // Joins the bytes up to revision k's end behind those of a second store, if its space suffices.
    pub fn draw<T: Store>(&self, k: usize, out: &mut T) -> Result<(), Fault>
        ensures { Draws (moment_of S.Store.meaning self.now) k (T.Store.meaning out.old) result (T.Store.meaning out.new) }
    {
        let row = self.row(k, 0)?;
        if row.end > out.space() {
            return Err(Fault::refused(Reason::NoSpace, 0));
        }
        join(&self.store, row.end, out);
        Ok(())
    }

    // The row of revision k, or what refuses the question; `object` is the number that the question names, 0 if none, as
    // the definitions and the printed fault have it.
    pub(super) fn row(&self, k: usize, object: usize) -> Result<Revision, Fault>
        ensures { RowAsked (moment_of S.Store.meaning self.now) (revisions_in self.now) (cells_in self.now) object k result }
    {
        if self.is_shut() {
            return Err(Fault::refused(Reason::BookShut, object));
        }
        row_of(self.memory.tables.revisions(), k).ok_or(Fault::refused(Reason::NoRevision, object))
    }

    // Whether it has not been opened.
    pub fn is_shut(&self) -> bool
        ensures { result ≡ is_shut (moment_of S.Store.meaning self.now).phase }
    {
        matches!(self.phase, Phase::Shut)
    }
}
