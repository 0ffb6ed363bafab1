// The calls of a flat store. A buffer with `used` beside it is kept here, in an overlay and in the window of `records`, and they are no one type:
// this memory is given from outside and of any size, an overlay's tail is an array of its own, and a window is filled by a store.
ghost use Rattle.std.specs.Prelude.{◌≡◌, vec_len};
ghost use Rattle.stores.specs.Figures.{Checked};
ghost use Rattle.stores.specs.Flats.{FlatFits, Holds, flat_meaning, memory_of, start_of};
ghost use Rattle.stores.specs.Meanings.{Appends, Cuts};

use super::Flat;
use crate::row::{lay, window};
use crate::store::{LONGEST, Store};
use faults::fault::Fault;
use faults::reason::Reason;

impl Flat {
    // Whether the first `length` bytes of the memory may stand as a store.
    pub fn check(memory: &Vec<u8>, length: usize) -> Result<(), Fault>
        ensures { Checked (FlatFits memory.now length) result }
    {
        if length <= memory.len() && length <= LONGEST {
            Ok(())
        } else {
            Err(Fault::refused(Reason::StoreLength, 0))
        }
    }

    // The first `length` bytes of the memory, as a store.
    pub fn new(memory: Vec<u8>, length: usize) -> Flat
        requires { FlatFits memory length }
        ensures meaning { flat_meaning result ≡ start_of memory length }
        ensures memory { memory_of result ≡ memory }
    {
        Flat {
            memory,
            used: length,
        }
    }

    // The memory back, with the bytes of the store at its start.
    pub fn into_memory(self) -> Vec<u8>
        ensures memory { result ≡ memory_of self }
        ensures holds { Holds result (flat_meaning self) }
    {
        let Flat { memory, .. } = self;
        memory
    }
}

impl Store for Flat {
    ghost meaning = { flat_meaning };

    fn len(&self) -> usize {
        self.used
    }

    fn space(&self) -> usize {
        self.memory.len() - self.used
    }

    fn byte_at(&self, place: usize) -> Option<u8> {
        self.memory[..self.used].get(place).copied()
    }

    // The memory keeps its size.
    fn append(&mut self, more: &[u8]) -> Result<(), Fault>
        ensures appends { Appends (flat_meaning self.old) more.now result (flat_meaning self.new) }
        ensures size { vec_len (memory_of self.new) ≡ vec_len (memory_of self.old) }
    {
        let used = self.used;
        if more.len() > self.memory.len() - used {
            return Err(Fault::refused(Reason::NoSpace, 0));
        }
        lay(&mut self.memory, used, more);
        self.used = used + more.len();
        Ok(())
    }

    // The memory is as it was: only the length falls.
    fn cut(&mut self, n: usize) -> Result<(), Fault>
        ensures cuts { Cuts (flat_meaning self.old) n result (flat_meaning self.new) }
        ensures memory { memory_of self.new ≡ memory_of self.old }
    {
        if n > self.used {
            return Err(Fault::refused(Reason::CutPastEnd, 0));
        }
        self.used = n;
        Ok(())
    }

    fn read(&self, from: usize, buffer: &mut [u8]) -> usize {
        window(&self.memory[..self.used], from, buffer)
    }
}
