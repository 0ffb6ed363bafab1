// The calls of a store. The heap is lent beside the store: the one is the bench's, the other a part of its pile.
ghost use Rattle.std.specs.Prelude.{◌≡◌, IfOk};
ghost use Rattle.replay.specs.Calls.{Appended, BytesTold, ByteTold, Called, CutBack};
ghost use Rattle.replay.specs.Hex.{hex_of};

use crate::answer::{Answer, Setback, Value, plain};
use crate::command::Call;
use crate::hex;
use std::alloc::{AllocError, Global};
use stores::store::Store;

// How many bytes are read at once.
const WINDOW: usize = 4096;

pub fn answer<S: Store>(heap: Global, store: &mut S, call: &Call) -> Answer
    ensures { Called (S.Store.meaning store.old) call.now result (S.Store.meaning store.new) }
{
    match call {
        Call::Append(more) => append(heap, store, more.as_slice()),
        Call::Cut(n) => cut(heap, store, *n),
        Call::Byte(place) => byte(heap, store, *place),
        Call::Bytes => bytes(heap, store),
    }
}

fn append<S: Store>(heap: Global, store: &mut S, more: &[u8]) -> Answer
    ensures { Appended (S.Store.meaning store.old) more.now result (S.Store.meaning store.new) }
{
    plain(heap, store.append(more).map_err(Setback::Fault))
}

fn cut<S: Store>(heap: Global, store: &mut S, n: usize) -> Answer
    ensures { CutBack (S.Store.meaning store.old) n result (S.Store.meaning store.new) }
{
    plain(heap, store.cut(n).map_err(Setback::Fault))
}

fn byte<S: Store>(heap: Global, store: &S, place: usize) -> Answer
    ensures { ByteTold (S.Store.meaning store.now) place result }
{
    // two answers of one match: `map_or` would be no shorter
    let value = match store.byte_at(place) {
        Some(b) => Value::Number(usize::from(b)),
        None => Value::Nothing,
    };
    Ok(vec![in heap; value]?)
}

// The length, the space, and the bytes in hex.
fn bytes<S: Store>(heap: Global, store: &S) -> Answer
    ensures { BytesTold (S.Store.meaning store.now) result }
{
    let text = digits(heap, store)?;
    let length = Value::Number(store.len());
    let space = Value::Number(store.space());
    Ok(vec![in heap; length, space, Value::Hex(text)]?)
}

fn digits<S: Store>(heap: Global, store: &S) -> Result<Vec<u8>, AllocError>
    ensures { IfOk result (λ v. v.items ≡ hex_of (S.Store.meaning store.now).bytes) }
{
    let length = store.len();
    let mut text = Vec::with_capacity(heap, length.saturating_mul(2))?;
    let mut window = [0; WINDOW];
    for place in (0..length).step_by(WINDOW) {
        let count = store.read(place, &mut window);
        hex::encode(&window[..count], &mut text)?;
    }
    Ok(text)
}
