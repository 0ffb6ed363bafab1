// The calls that change a book.
ghost use Rattle.std.specs.Prelude.{◌≡◌, false, length, IfOk};
ghost use Rattle.format.specs.Book.{abandon, back, begin, commit, history, open_file, put, remove, spent_after};
ghost use Rattle.book.specs.Books.{Performs, done, store_in};
ghost use Rattle.book.specs.Slips.{is_spent};

use super::Book;
use crate::call::Call;
use crate::slip::Slip;
use faults::fault::Fault;
use stores::store::Store;

impl<S: Store> Book<S> {
    // Opens the record that lies in the store, and answers how many revisions it has.
    pub fn open(&mut self) -> Result<usize, Fault>
        ensures performs { Performs S.Store.meaning self.old open_file (done result) self.new }
        ensures counted { IfOk result (λ k. k ≡ length (history (S.Store.meaning (store_in self.new)).bytes)) }
    {
        self.perform(&Call::Open)?;
        Ok(self.memory.tables.len())
    }

    // Begins an update, and hands out its slip.
    pub fn begin(&mut self) -> Result<Slip, Fault>
        ensures performs { Performs S.Store.meaning self.old begin (done result) self.new }
        ensures owed { IfOk result (λ slip. is_spent slip ≡ false) }
    {
        self.perform(&Call::Begin)?;
        Ok(Slip::owed())
    }

    // Holds a body for a number, in the open update.
    pub fn put(&mut self, slip: &Slip, number: usize, body: &[u8]) -> Result<(), Fault>
        ensures { Performs S.Store.meaning self.old (put (is_spent slip.now) number body.now) result self.new }
    {
        let spent = slip.is_spent();
        self.perform(&Call::Put {
            spent,
            number,
            body,
        })
    }

    // Holds the removal of a number, in the open update.
    pub fn remove(&mut self, slip: &Slip, number: usize) -> Result<(), Fault>
        ensures { Performs S.Store.meaning self.old (remove (is_spent slip.now) number) result self.new }
    {
        let spent = slip.is_spent();
        self.perform(&Call::Remove { spent, number })
    }

    // Writes the open update behind the file, spends the slip, and answers how many revisions there are then.
    pub fn commit(&mut self, slip: &mut Slip) -> Result<usize, Fault>
        ensures performs { Performs S.Store.meaning self.old (commit (is_spent slip.old)) (done result) self.new }
        ensures counted { IfOk result (λ k. k ≡ length (history (S.Store.meaning (store_in self.new)).bytes)) }
        ensures slip { is_spent slip.new ≡ spent_after (commit (is_spent slip.old)) (done result) (is_spent slip.old) }
    {
        let spent = slip.is_spent();
        self.perform(&Call::Commit { spent })?;
        slip.spend();
        Ok(self.memory.tables.len())
    }

    // Drops the open update, and spends the slip.
    pub fn abandon(&mut self, slip: &mut Slip) -> Result<(), Fault>
        ensures performs { Performs S.Store.meaning self.old (abandon (is_spent slip.old)) result self.new }
        ensures slip { is_spent slip.new ≡ spent_after (abandon (is_spent slip.old)) result (is_spent slip.old) }
    {
        let spent = slip.is_spent();
        self.perform(&Call::Abandon { spent })?;
        slip.spend();
        Ok(())
    }

    // Goes back to revision k: what came behind it is cut off.
    pub fn back(&mut self, k: usize) -> Result<(), Fault>
        ensures { Performs S.Store.meaning self.old (back k) result self.new }
    {
        self.perform(&Call::Back { revision: k })
    }
}
