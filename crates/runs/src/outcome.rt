// What a list of calls leaves.
ghost use Rattle.std.specs.Prelude.{◌≡◌};
ghost use Rattle.book.specs.Books.{store_in};

use book::book::{Book, Memory};
use book::slip::Slip;
use faults::fault::Fault;
use stores::store::Store;

// Every call was made, and has its answer; the slip is owed exactly while an update is open.
//
// Book and slip are two values, and no invariant ties them here: whoever goes on lends both to the book's own calls, which change one by one.
pub struct Work<S: Store> {
    pub book: Book<S>,
    pub slip: Slip,
    pub answers: Vec<Result<(), Fault>>,
}

// Why no call was made. `Trouble` of crate `reports` has the same two cases, but neither crate stands on the other, and in `book`, below both, no
// call has both answers.
#[derive(Clone, Copy, Debug, PartialEq, Eq)]
pub enum WorkError {
    // there is no memory for the answers
    NoMemory,
    // the bytes of the store do not open
    Refused(Fault),
}

// No book was left: the store and the memory come back, with the cause.
pub struct Stopped<S, C> {
    pub store: S,
    pub memory: Memory,
    pub cause: C,
}

// Takes a book apart again: its store and its memory go back with the cause.
pub(crate) fn given_back<S: Store, C>(book: Book<S>, cause: C) -> Stopped<S, C>
    ensures store { result.store ≡ store_in book }
    ensures cause { result.cause ≡ cause }
{
    let (store, memory) = book.into_parts();
    Stopped {
        store,
        memory,
        cause,
    }
}
