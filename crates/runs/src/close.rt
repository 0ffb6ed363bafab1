// Letting a book go after a list of calls.
ghost use Rattle.std.specs.Prelude.{◌≡◌};
ghost use Rattle.book.specs.Books.{store_in};
ghost use Rattle.runs.specs.Made.{Tied};

use book::book::{Book, Memory};
use book::slip::Slip;
use stores::store::Store;

// Takes the book apart. An update that is still open is abandoned first, so that its slip is spent; the store means what it meant.
pub fn close<S: Store>(mut book: Book<S>, mut slip: Slip) -> (S, Memory)
    requires { Tied S.Store.meaning book slip }
    ensures { S.Store.meaning result.0 ≡ S.Store.meaning (store_in book) }
{
    if slip.is_spent() {
        return book.into_parts();
    }
    let _ = book.abandon(&mut slip);
    book.into_parts()
}
