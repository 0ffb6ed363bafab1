// What became of an object between two revisions.
ghost use Rattle.std.specs.Prelude.{◌≡◌};
ghost use Rattle.book.specs.Books.{moment_of};
ghost use Rattle.book.specs.Differences.{Lies, LiesIf, ask_differ, became, body_in, same_in};

use super::Book;
use crate::parts::same_parts;
use crate::rows::{Body, body_of, cells_of};
use faults::fault::Fault;
use stores::store::Store;

// It came into use, it is in use in both with another generation or another body, or it is no longer in use.
#[derive(Clone, Copy, Debug, PartialEq, Eq)]
pub enum Difference {
    Added,
    Changed,
    Withdrawn,
}

impl<S: Store> Book<S> {
    // What became of the number n from revision j to revision k, if anything did. Two revisions are what is compared: a pair would be made for the call.
    pub fn differ(&self, j: usize, k: usize, n: usize) -> Result<Option<Difference>, Fault>
        ensures { result ≡ ask_differ (moment_of S.Store.meaning self.now) j k n }
    {
        let earlier = self.row(j, n)?;
        let later = self.row(k, n)?;
        let cells = self.memory.tables.cells();
        let before = body_of(cells_of(cells, earlier), n);
        let after = body_of(cells_of(cells, later), n);
        Ok(compare(&self.store, before, after))
    }
}

fn compare<S: Store>(store: &S, before: Option<Body>, after: Option<Body>) -> Option<Difference>
    requires first { LiesIf (S.Store.meaning store.now).bytes before }
    requires second { LiesIf (S.Store.meaning store.now).bytes after }
    ensures { result ≡ became (body_in (S.Store.meaning store.now).bytes before) (body_in (S.Store.meaning store.now).bytes after) }
{
    match (before, after) {
        (None, None) => None,
        (None, Some(_)) => Some(Difference::Added),
        (Some(_), None) => Some(Difference::Withdrawn),
        (Some(a), Some(b)) => {
            if same_object(store, a, b) {
                None
            } else {
                Some(Difference::Changed)
            }
        }
    }
}

// Whether two objects have the same generation and the same body. Bodies at the same place, or of other lengths, are not read.
fn same_object<S: Store>(store: &S, a: Body, b: Body) -> bool
    requires first { Lies (S.Store.meaning store.now).bytes a }
    requires second { Lies (S.Store.meaning store.now).bytes b }
    ensures { result ≡ same_in (S.Store.meaning store.now).bytes a b }
{
    a.generation == b.generation
        && a.end - a.start == b.end - b.start
        && (a.start == b.start || same_parts(store, a, b))
}
