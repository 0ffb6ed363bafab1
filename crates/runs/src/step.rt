// One call of a list. It is shown the slip held, or a spent one if it asks for that.
ghost use Rattle.std.specs.Prelude.{◌≡◌, false, true};
ghost use Rattle.keeping.specs.Driving.{is_updating};
ghost use Rattle.book.specs.Books.{moment_of};
ghost use Rattle.book.specs.Calls.{call_of};
ghost use Rattle.book.specs.Slips.{is_spent};
ghost use Rattle.runs.specs.Made.{MadeWith, Makes, Tied};

use book::book::Book;
use book::call::Call;
use book::slip::Slip;
use faults::fault::Fault;
use stores::store::Store;

// Makes a call with this slip, whatever the call says of its own.
fn make_with<S: Store>(book: &mut Book<S>, slip: &mut Slip, call: &Call<'_>) -> Result<(), Fault>
    requires { is_updating (moment_of S.Store.meaning book.old).phase ≡ false → is_spent slip.old ≡ true }
    ensures { MadeWith S.Store.meaning book.old (is_spent slip.old) (call_of call.now) result book.new slip.new }
{
    match call {
        Call::Open => book.open().map(|_| ()),
        Call::Begin => {
            // the slip that is handed out is held from then on: the one before is spent
            let owed = book.begin()?;
            *slip = owed;
            Ok(())
        }
        Call::Put { number, body, .. } => book.put(slip, *number, body),
        Call::Remove { number, .. } => book.remove(slip, *number),
        Call::Commit { .. } => book.commit(slip).map(|_| ()),
        Call::Abandon { .. } => book.abandon(slip),
        Call::Back { revision } => book.back(*revision),
    }
}

// Makes one call, whatever it is, and answers as the book does. Book and slip are two values, lent to the book's calls one by one, so that they
// agree (`Tied`) is asked: here, in `make_calls` and in `close`.
pub(crate) fn make_call<S: Store>(
    book: &mut Book<S>,
    slip: &mut Slip,
    call: &Call<'_>,
) -> Result<(), Fault>
    requires { Tied S.Store.meaning book.old slip.old }
    ensures { Makes S.Store.meaning book.old (call_of call.now) result book.new slip.new }
{
    if call.is_spent() {
        let mut used = Slip::spent();
        return make_with(book, &mut used, call);
    }
    make_with(book, slip, call)
}
