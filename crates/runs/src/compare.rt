// How the files of two lists of calls compare.
ghost use Rattle.runs.specs.Works.{Compared, Worked};

use crate::outcome::{Stopped, Work, WorkError};
use crate::work::work;
use book::book::Memory;
use book::call::Call;
use std::alloc::Global;
use stores::store::Store;

// Makes two lists of calls, each on a new book round a store of its own.
//
// From the same opening bytes, two files that keep equally many opening revisions are equal, byte for byte, exactly when they hold the same
// updates in the same order, by the accounts of the calls and their answers. So a file says what was kept in it, and nothing of the ways
// that led there: not which calls were refused, what was abandoned, or what was held before the book went back.
//
// Each side is what `work` takes, given one by one as there: a struct of the three would be made for this call alone, and taken apart in it.
pub fn equal_files_hold_equal_updates<S: Store, T: Store>(
    heap: Global,
    first: S,
    first_memory: Memory,
    first_calls: &[Call<'_>],
    second: T,
    second_memory: Memory,
    second_calls: &[Call<'_>],
) -> (
    Result<Work<S>, Stopped<S, WorkError>>,
    Result<Work<T>, Stopped<T, WorkError>>,
)
    ensures one { Worked S.Store.meaning first first_calls.now result.0 }
    ensures other { Worked T.Store.meaning second second_calls.now result.1 }
    ensures compared { Compared S.Store.meaning T.Store.meaning first second first_calls.now second_calls.now result.0 result.1 }
{
    let one = work(heap, first, first_memory, first_calls);
    let other = work(heap, second, second_memory, second_calls);
    (one, other)
}
