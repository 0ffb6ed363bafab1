// Bytes of a store, copied into a buffer or into another store.
ghost use Rattle.std.specs.Prelude.{◌≡◌, ◌-◌, ◌≤◌, ◌++◌, length, take, drop};
ghost use Rattle.book.specs.Copies.{BodyInto, Grown};
ghost use Rattle.book.specs.Differences.{Lies};
ghost use Rattle.entries.specs.Cells.{part};

use crate::rows::Body;
use faults::fault::Fault;
use faults::reason::Reason;
use stores::store::Store;

// How many bytes are copied at once.
const STRIDE: usize = 4096;

// Fills the start of the buffer with a body that lies in the store; the rest keeps its bytes.
fn fill<S: Store>(store: &S, body: Body, buffer: &mut [u8])
    requires lies { Lies (S.Store.meaning store.now).bytes body }
    requires room { body.end - body.start ≤ length buffer.old }
    ensures { buffer.new ≡ part (S.Store.meaning store.now).bytes body.start body.end ++ drop (body.end - body.start) buffer.old }
{
    let _count = store.read(body.start, &mut buffer[0..body.end - body.start]);
}

// Fills the start of the buffer with the body of the number n, and answers its length; a short buffer keeps its bytes.
pub fn body_into<S: Store>(
    store: &S,
    body: Body,
    n: usize,
    buffer: &mut [u8],
) -> Result<usize, Fault>
    requires { Lies (S.Store.meaning store.now).bytes body }
    ensures { BodyInto (part (S.Store.meaning store.now).bytes body.start body.end) (body.end - body.start) n buffer.old result buffer.new }
{
    let length = body.end - body.start;
    if length > buffer.len() {
        return Err(Fault::refused(Reason::ShortBuffer, n));
    }
    fill(store, body, buffer);
    Ok(length)
}

// Joins the first `end` bytes of a store behind those of another, which has the space for them.
pub fn join<S: Store, T: Store>(store: &S, end: usize, out: &mut T)
    requires inside { end ≤ length (S.Store.meaning store.now).bytes }
    requires room { end ≤ (T.Store.meaning out.old).space }
    ensures { Grown (T.Store.meaning out.old) (take end (S.Store.meaning store.now).bytes) (T.Store.meaning out.new) }
{
    let mut window = [0; STRIDE];
    for place in (0..end).step_by(STRIDE) {
        let count = store.read(place, &mut window).min(end - place);
        // proved accepted: there is the space
        let _ = out.append(&window[..count]);
    }
}
