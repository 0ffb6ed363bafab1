// The calls of a window.
ghost use Rattle.std.specs.Prelude.{◌≡◌, ◌-◌, ◌≤◌, min, [], length, take, drop, IfOk};
ghost use Rattle.format.specs.Chain.{window_bytes};
ghost use Rattle.format.specs.Frames.{frame};
ghost use Rattle.objects.specs.Framing.{FrameLies, framed_at};
ghost use Rattle.records.specs.Windows.{seen_in};

use super::{WINDOW_BYTES, Window};
use faults::fault::Fault;
use objects::frame::{Frame, read_frame_at};
use std::alloc::{AllocError, Global};
use stores::store::Store;

// Fills the start of the buffer with at most `most` of the store's bytes from `from` on, and answers how many.
fn fill_front<S: Store>(store: &S, from: usize, most: usize, buffer: &mut [u8]) -> usize
    ensures is { take result buffer.new ≡ take (min most (length buffer.old)) (drop from (S.Store.meaning store.now).bytes) }
    ensures within { result ≤ length buffer.old }
{
    let count = most.min(buffer.len());
    store.read(from, &mut buffer[0..count])
}

impl Window {
    pub fn new(heap: Global) -> Result<Window, AllocError>
        ensures { IfOk result (λ w. seen_in w ≡ []) }
    {
        let bytes = vec![in heap; 0; WINDOW_BYTES]?;
        Ok(Window { bytes, used: 0 })
    }

    // Shows the store's bytes from `from` on, at most `most` of them.
    pub fn fill<S: Store>(&mut self, store: &S, from: usize, most: usize)
        ensures { seen_in self.new ≡ take (min most window_bytes) (drop from (S.Store.meaning store.now).bytes) }
    {
        let used = fill_front(store, from, most, &mut self.bytes);
        self.used = used;
    }

    // The bytes that it shows.
    pub fn seen(&self) -> &[u8]
        ensures { result.now ≡ seen_in self.now }
    {
        &self.bytes.as_slice()[0..self.used]
    }

    // The object that stands at `at` in the store; it is never read from `end` on.
    pub fn frame_at<S: Store>(&mut self, store: &S, at: usize, end: usize) -> Result<Frame, Fault>
        ensures seen { seen_in self.new ≡ take (min (end - at) window_bytes) (drop at (S.Store.meaning store.now).bytes) }
        ensures is { framed_at at (seen_in self.new) result ≡ frame at (seen_in self.new) }
        ensures within { IfOk result (FrameLies at (length (seen_in self.new))) }
    {
        self.fill(store, at, end.saturating_sub(at));
        read_frame_at(at, self.seen())
    }
}
