// The trailer of the section at an offset of a store.
ghost use Rattle.std.specs.Prelude.{◌≡◌};
ghost use Rattle.records.specs.Trailers.{ReadsTrailer, offsets_in, seen_by};

use crate::scratch::Scratch;
use faults::fault::Fault;
use stores::store::Store;

// Reads the section at `offset` into the window, and answers the place behind its trailer's `<<` there.
pub fn read_trailer<S: Store>(
    store: &S,
    scratch: &mut Scratch,
    offset: usize,
) -> Result<usize, Fault>
    ensures is { ReadsTrailer (S.Store.meaning store.now).bytes offset (seen_by scratch.new) result }
    ensures kept { offsets_in scratch.new ≡ offsets_in scratch.old }
{
    let section = scratch.section_at(store, offset)?;
    Ok(section.inside)
}
