// Revisions that are drawn out, opened alone.
ghost use Rattle.runs.specs.Extracts.{DrawsAlone, Extracts};

use crate::outcome::{Stopped, given_back};
use book::book::{Book, Memory};
use faults::fault::Fault;
use stores::store::Store;

// Why a revision was not drawn out.
#[derive(Clone, Copy, Debug, PartialEq, Eq)]
pub enum ExtractError {
    // the store held bytes already, and nothing was done
    NotEmpty,
    // the drawing was refused
    Refused(Fault),
}

// Draws revision k out into a store, if that holds no bytes.
fn draw_alone<S: Store, T: Store>(book: &Book<S>, k: usize, out: &mut T) -> Result<(), ExtractError>
    ensures { DrawsAlone S.Store.meaning T.Store.meaning book.now k out.old result out.new }
{
    if out.len() > 0 {
        return Err(ExtractError::NotEmpty);
    }
    book.draw(k, out).map_err(ExtractError::Refused)
}

// Draws revision k out into a store that holds no bytes, and opens it there by a book of its own.
//
// What was drawn is accepted as k revisions, and each of them is the very revision that the file has: every question about it is answered
// there as in the file.
pub fn open_alone<S: Store, T: Store>(
    book: &Book<S>,
    k: usize,
    mut out: T,
    memory: Memory,
) -> Result<Book<T>, Stopped<T, ExtractError>>
    ensures { Extracts S.Store.meaning T.Store.meaning book.now k out result }
{
    // store and memory go back with the cause, and so not by `?`; the good answer holds nothing, so an `if let` is enough
    if let Err(cause) = draw_alone(book, k, &mut out) {
        return Err(Stopped {
            store: out,
            memory,
            cause,
        });
    }
    let mut alone = Book::new(out, memory);
    // a match, since both ways out need the book
    match alone.open() {
        Ok(_) => Ok(alone),
        Err(fault) => Err(given_back(alone, ExtractError::Refused(fault))),
    }
}
