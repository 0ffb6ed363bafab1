// What changed between two revisions.
ghost use Rattle.std.specs.Prelude.{◌≡◌, IfOk};
ghost use Rattle.book.specs.Books.{moment_of};
ghost use Rattle.reports.specs.Differences.{Differs, numbers_of};

use crate::trouble::Trouble;
use book::book::Book;
use book::book::compare::Difference;
use std::alloc::{AllocError, Global};
use stores::store::Store;

// An object number, and what became of it.
#[derive(Clone, Copy, Debug, PartialEq, Eq)]
pub struct Change {
    pub number: usize,
    pub difference: Difference,
}

// The objects added, changed and withdrawn from revision j to revision k, by ascending number.
pub fn differences<S: Store>(
    heap: Global,
    book: &Book<S>,
    j: usize,
    k: usize,
) -> Result<Vec<Change>, Trouble>
    ensures { Differs (moment_of S.Store.meaning book.now) j k result }
{
    let earlier = book.list(j)?;
    let later = book.list(k)?;
    let count = earlier.size.max(later.size);
    let mut all = Vec::with_capacity(heap, count)?;
    // the book answers by number and lends no list
    for n in 0..count {
        if let Some(difference) = book.differ(j, k, n)? {
            all.push_reserved(Change {
                number: n,
                difference,
            });
        }
    }
    Ok(all)
}

// The numbers of which the same became.
pub fn numbers_of(
    heap: Global,
    changes: &[Change],
    difference: Difference,
) -> Result<Vec<usize>, AllocError>
    ensures { IfOk result (λ v. v.items ≡ numbers_of difference changes.now) }
{
    changes
        .iter()
        .filter(|change| change.difference == difference)
        .map(|change| change.number)
        .collect(heap)
}
