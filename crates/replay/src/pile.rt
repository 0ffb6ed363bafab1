// The stores at hand: a flat one, and overlays over it.
ghost use Rattle.replay.specs.Piles.{Laid, Made, PileCalled};

use crate::answer::{Answer, Setback};
use crate::calls;
use crate::command::Call;
use crate::trouble::Trouble;
use std::alloc::Global;
use stores::flat::Flat;
use stores::overlay::Overlay;
use stores::store::Store;

#[derive(Drop)]
pub enum Pile {
    Empty,
    Bare(Flat),
    Once(Overlay<Flat>),
    Twice(Overlay<Overlay<Flat>>),
}

impl Pile {
    // A flat store in the place of what stood before.
    pub fn flat(&mut self, space: usize, bytes: Vec<u8>) -> Result<(), Setback>
        ensures { Made space bytes self.old result self.new }
    {
        let length = bytes.len();
        let size = length.checked_add(space).ok_or(Trouble::NoMemory)?;
        let mut memory = bytes;
        memory.resize(size, 0)?;
        Flat::check(&memory, length)?;
        *self = Pile::Bare(Flat::new(memory, length));
        Ok(())
    }

    // An overlay over the topmost store.
    pub fn overlay(&mut self) -> Result<(), Setback>
        ensures { Laid self.old result self.new }
    {
        let (top, result) = std::mem::replace(self, Pile::Empty).overlaid();
        *self = top;
        result
    }

    // A store that no overlay may cover stands again, so its refusal goes beside the pile and not by `?`.
    // The two arms with a store are alike but for its type. A helper over any store would take the makers of both piles, and its clause would have to say
    // of each what it makes: that is longer than the arm it saves.
    fn overlaid(self) -> (Pile, Result<(), Setback>)
        ensures { Laid self result.1 result.0 }
    {
        match self {
            Pile::Empty => (Pile::Empty, Err(Setback::Trouble(Trouble::NoStore))),
            Pile::Bare(store) => match Overlay::check(&store) {
                Ok(()) => (Pile::Once(Overlay::new(store)), Ok(())),
                Err(fault) => (Pile::Bare(store), Err(Setback::Fault(fault))),
            },
            Pile::Once(store) => match Overlay::check(&store) {
                Ok(()) => (Pile::Twice(Overlay::new(store)), Ok(())),
                Err(fault) => (Pile::Once(store), Err(Setback::Fault(fault))),
            },
            Pile::Twice(store) => (
                Pile::Twice(store),
                Err(Setback::Trouble(Trouble::OverlaysFull)),
            ),
        }
    }

    // A call of the topmost store. The arms are alike but for its type: a `&mut dyn Store` would have to be taken out of the pile by the same arms.
    pub fn call(&mut self, heap: Global, call: &Call) -> Answer
        ensures { PileCalled self.old call.now result self.new }
    {
        match self {
            Pile::Empty => Err(Setback::Trouble(Trouble::NoStore)),
            Pile::Bare(store) => calls::answer(heap, store, call),
            Pile::Once(store) => calls::answer(heap, store, call),
            Pile::Twice(store) => calls::answer(heap, store, call),
        }
    }
}
