// Two bodies that lie in a store, compared.
ghost use Rattle.std.specs.Prelude.{◌≡◌, ◌-◌};
ghost use Rattle.format.specs.Bytes.{same};
ghost use Rattle.entries.specs.Cells.{part};
ghost use Rattle.book.specs.Differences.{Lies};

use crate::rows::Body;
use lexer::name::same_bytes;
use stores::store::Store;

// How many bytes are compared at once.
const STRIDE: usize = 2048;

// Whether two bodies of one length have the same bytes.
pub fn same_parts<S: Store>(store: &S, a: Body, b: Body) -> bool
    requires first { Lies (S.Store.meaning store.now).bytes a }
    requires second { Lies (S.Store.meaning store.now).bytes b }
    requires even { a.end - a.start ≡ b.end - b.start }
    ensures { result ≡ same (part (S.Store.meaning store.now).bytes a.start a.end) (part (S.Store.meaning store.now).bytes b.start b.end) }
{
    let count = a.end - a.start;
    let mut one = [0; STRIDE];
    let mut other = [0; STRIDE];
    for done in (0..count).step_by(STRIDE) {
        let many = STRIDE.min(count - done);
        let _one = store.read(a.start + done, &mut one);
        let _other = store.read(b.start + done, &mut other);
        if !same_bytes(&one[..many], &other[..many]) {
            return false;
        }
    }
    true
}
