// The calls of an overlay. Its tail is a buffer with `used` beside it, as a flat store's memory is, and they are no one type: the tail is an array of
// the overlay's own, and a flat store's memory is given from outside, of any size, and goes back.
ghost use Rattle.std.specs.Prelude.{◌≡◌, ◌+◌, ◌-◌, ◌≤◌, ◌++◌, length, take, OnOk, nat_lt};
ghost use Rattle.std.specs.List.{slice_get};
ghost use Rattle.stores.specs.Figures.{Checked, longest, tail_size};
ghost use Rattle.stores.specs.Meanings.{Appends, Cuts, Filled};
ghost use Rattle.stores.specs.Overlays.{OverlayFits, beneath, overlay_meaning, part_size, shown_over, space_cut_to};

use super::{Overlay, TAIL_SIZE};
use crate::row::{lay, window};
use crate::store::{LONGEST, Store};
use faults::fault::Fault;
use faults::reason::Reason;

impl<S: Store> Overlay<S> {
    // Whether an overlay may stand over the store.
    pub fn check(below: &S) -> Result<(), Fault>
        ensures { Checked (OverlayFits (S.Store.meaning below.now)) result }
    {
        if below.len() <= LONGEST {
            Ok(())
        } else {
            Err(Fault::refused(Reason::StoreLength, 0))
        }
    }

    // All of the store below, with an empty tail.
    pub fn new(below: S) -> Overlay<S>
        requires { OverlayFits (S.Store.meaning below) }
        ensures meaning { overlay_meaning S.Store.meaning result ≡ shown_over (S.Store.meaning below) }
        ensures below { beneath result ≡ below }
    {
        let shown = below.len();
        Overlay::over(below, shown)
    }

    // The first `shown` bytes of the store below, with an empty tail.
    fn over(below: S, shown: usize) -> Overlay<S>
        requires { shown ≤ longest }
        ensures below { result.below ≡ below }
        ensures shown { result.shown ≡ shown }
        ensures used { result.used ≡ 0 }
    {
        Overlay {
            below,
            shown,
            tail: [0; TAIL_SIZE],
            used: 0,
        }
    }

    // The store below back, as it was given.
    pub fn into_below(self) -> S
        ensures { result ≡ beneath self }
    {
        let Overlay { below, .. } = self;
        below
    }

    // How many bytes of the store below are shown.
    fn base(&self) -> usize
        ensures { result ≡ part_size S.Store.meaning self.now }
    {
        self.shown.min(self.below.len())
    }

    // Whether the place lies in the part below.
    fn is_below(&self, place: usize) -> bool
        ensures { result ≡ nat_lt place (part_size S.Store.meaning self.now) }
    {
        place < self.base()
    }

    // The byte of the tail at a place, counted from the tail's start.
    fn tail_byte(&self, place: usize) -> Option<u8>
        ensures { result ≡ slice_get (take self.now.used self.now.tail) place }
    {
        self.tail[..self.used].get(place).copied()
    }

    // Reads the tail, by a place counted over the whole overlay; one in the part below stands for the tail's start.
    fn read_tail(&self, from: usize, buffer: &mut [u8]) -> usize
        ensures { Filled (take self.now.used self.now.tail) (from - part_size S.Store.meaning self.now) buffer.old result buffer.new }
    {
        let start = from.saturating_sub(self.base());
        window(&self.tail[..self.used], start, buffer)
    }

    // Adds to the tail.
    fn extend_tail(&mut self, more: &[u8])
        requires { self.old.used + length more.now ≤ tail_size }
        ensures below { self.new.below ≡ self.old.below }
        ensures shown { self.new.shown ≡ self.old.shown }
        ensures used { self.new.used ≡ self.old.used + length more.now }
        ensures tail { take self.new.used self.new.tail ≡ take self.old.used self.old.tail ++ more.now }
    {
        let used = self.used;
        lay(&mut self.tail, used, more);
        self.used = used + more.len();
    }

    // Shows the first `n` bytes of the store below, and no tail.
    fn show_only(&mut self, n: usize)
        requires { n ≤ self.old.shown }
        ensures below { self.new.below ≡ self.old.below }
        ensures shown { self.new.shown ≡ n }
        ensures used { self.new.used ≡ 0 }
    {
        self.shown = n;
        self.used = 0;
    }
}

impl<S: Store> Store for Overlay<S> {
    ghost meaning = { overlay_meaning S.Store.meaning };

    fn len(&self) -> usize {
        self.base() + self.used
    }

    fn space(&self) -> usize {
        TAIL_SIZE - self.used
    }

    fn byte_at(&self, place: usize) -> Option<u8> {
        if self.is_below(place) {
            self.below.byte_at(place)
        } else {
            self.tail_byte(place - self.base())
        }
    }

    fn append(&mut self, more: &[u8]) -> Result<(), Fault>
        ensures appends { Appends (overlay_meaning S.Store.meaning self.old) more.now result (overlay_meaning S.Store.meaning self.new) }
        ensures below { beneath self.new ≡ beneath self.old }
    {
        if more.len() > TAIL_SIZE - self.used {
            return Err(Fault::refused(Reason::NoSpace, 0));
        }
        self.extend_tail(more);
        Ok(())
    }

    // A cut into the part below empties the tail.
    fn cut(&mut self, n: usize) -> Result<(), Fault>
        ensures cuts { Cuts (overlay_meaning S.Store.meaning self.old) n result (overlay_meaning S.Store.meaning self.new) }
        ensures space { OnOk result ((overlay_meaning S.Store.meaning self.new).space ≡ space_cut_to S.Store.meaning self.old n) }
        ensures below { beneath self.new ≡ beneath self.old }
    {
        let base = self.base();
        if n > base + self.used {
            return Err(Fault::refused(Reason::CutPastEnd, 0));
        }
        if n <= base {
            self.show_only(n);
        } else {
            self.used = n - base;
        }
        Ok(())
    }

    // The part below by one read, and what is left of the buffer from the tail.
    fn read(&self, from: usize, buffer: &mut [u8]) -> usize {
        let ahead = buffer.len().min(self.base().saturating_sub(from));
        self.below.read(from, &mut buffer[..ahead]);
        let behind = self.read_tail(from, &mut buffer[ahead..]);
        ahead + behind
    }
}
