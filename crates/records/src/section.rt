// The section at an offset of a store.
ghost use Rattle.std.specs.Prelude.{◌≡◌, ◌^◌, ◌<◌, length};

use crate::link::Link;
use crate::rows::in_bound;
use crate::scratch::Scratch;
use crate::window::WINDOW_BYTES;
use faults::fault::Fault;
use faults::layer::Layer;
use faults::reason::Reason;
use opening::section::{Section, read_section};
use opening::trailer::told;
use stores::store::Store;

impl Scratch {
    ghost use Rattle.records.specs.Linked.{ReadsLink};
    ghost use Rattle.records.specs.Trailers.{SectionSeen, seen_by};

    // The section at `offset`, read into the window, and its rows. A store and a place in it stand side by side here and in other calls of the crate:
    // the store is lent for one call, and places change with each section.
    pub(crate) fn section_at<S: Store>(
        &mut self,
        store: &S,
        offset: usize,
    ) -> Result<Section, Fault>
        ensures is { SectionSeen (S.Store.meaning store.now).bytes offset (seen_by self.new) self.new.rows result }
        ensures counts { length (S.Store.meaning store.now).bytes < 2 ^ 64 }
        ensures kept { self.new.offsets ≡ self.old.offsets }
    {
        let length = store.len();
        if offset > length {
            return Err(Fault::met(Reason::BytesEnd, Layer::Section, length));
        }
        self.window.fill(store, offset, WINDOW_BYTES);
        read_section(offset, self.window.seen(), &mut self.rows)
    }

    // The same with what its trailer says: the checks of a section but for Prev and its end.
    pub(crate) fn read_link<S: Store>(&mut self, store: &S, offset: usize) -> Result<Link, Fault>
        ensures is { ReadsLink (S.Store.meaning store.now).bytes offset self.new.rows result }
        ensures kept { self.new.offsets ≡ self.old.offsets }
    {
        let section = self.section_at(store, offset)?;
        if !in_bound(self.rows.as_slice()) {
            return Err(Fault::met(Reason::FileBound, Layer::Chain, 0));
        }
        let mark = offset + section.mark;
        let end = offset + section.end;
        let Some(told) = told(self.window.seen(), section.inside) else {
            return Err(Fault::met(Reason::BadTrailer, Layer::Section, mark));
        };
        Ok(Link {
            offset,
            end,
            one_from_zero: section.one_from_zero,
            told,
        })
    }
}
