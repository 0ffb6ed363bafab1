// Any list of calls on a new book.
ghost use Rattle.std.specs.Prelude.{◌≡◌, ◌≤◌, true, [], length, vec_capacity};
ghost use Rattle.runs.specs.Made.{MakesAll, Tied};
ghost use Rattle.runs.specs.Works.{Worked, had_memory};

use crate::outcome::{Stopped, Work, WorkError, given_back};
use crate::step::make_call;
use book::book::{Book, Memory};
use book::call::Call;
use book::slip::Slip;
use faults::fault::Fault;
use std::alloc::Global;
use stores::store::Store;

// Makes every call of the list, the first first, and puts each answer behind the one before.
// That there is room for the answers is a clause, here and in `work_with`: a struct of calls and memory would be made for this call alone.
fn make_calls<S: Store>(
    book: &mut Book<S>,
    slip: &mut Slip,
    calls: &[Call<'_>],
    answers: &mut Vec<Result<(), Fault>>,
)
    requires tied { Tied S.Store.meaning book.old slip.old }
    requires none { answers.old.items ≡ [] }
    requires room { length calls.now ≤ vec_capacity answers.old }
    ensures { MakesAll S.Store.meaning book.old calls.now answers.new.items book.new slip.new }
{
    for call in calls {
        let answer = make_call(book, slip, call);
        answers.push_reserved(answer);
    }
}

// Opens a new book round the store, and makes every call of the list on it, whatever these are: accepted or refused, with a spent slip or
// the one held, in an update or not. The answers go into a vector that is empty, with room for all of them. Store and memory are what a book
// is made of and gives back: a pair of them would be made only to be taken apart.
//
// What it leaves holds of every store, of every list and of all bytes: the calls with their answers are a run of the book; the file is the
// opening bytes up to the last opening revision kept and then, byte for byte, the updates held; and each revision in it, opened alone and in
// the file, shows exactly the objects that the opening bytes and the updates up to it leave.
pub fn work_with<S: Store>(
    store: S,
    memory: Memory,
    calls: &[Call<'_>],
    mut answers: Vec<Result<(), Fault>>,
) -> Result<Work<S>, Stopped<S, WorkError>>
    requires none { answers.items ≡ [] }
    requires room { length calls.now ≤ vec_capacity answers }
    ensures worked { Worked S.Store.meaning store calls.now result }
    ensures remembers { had_memory result ≡ true }
{
    let mut book = Book::new(store, memory);
    // store and memory go back with the cause, and so not by `?`; a match, since both ways out need the book
    match book.open() {
        Ok(_) => {
            let mut slip = Slip::spent();
            make_calls(&mut book, &mut slip, calls, &mut answers);
            Ok(Work {
                book,
                slip,
                answers,
            })
        }
        Err(fault) => Err(given_back(book, WorkError::Refused(fault))),
    }
}

// The same, with memory for the answers taken first: where there is none, nothing is done.
pub fn work<S: Store>(
    heap: Global,
    store: S,
    memory: Memory,
    calls: &[Call<'_>],
) -> Result<Work<S>, Stopped<S, WorkError>>
    ensures { Worked S.Store.meaning store calls.now result }
{
    // store and memory go back with the cause, and so not by `?`; a match, since both ways out need them
    match Vec::with_capacity(heap, calls.len()) {
        Ok(answers) => work_with(store, memory, calls, answers),
        Err(_) => Err(Stopped {
            store,
            memory,
            cause: WorkError::NoMemory,
        }),
    }
}
