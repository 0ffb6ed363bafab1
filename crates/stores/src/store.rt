// A list of bytes that can be read, added to at its end and cut from its end.
ghost use Rattle.std.specs.Prelude.{◌≡◌, length};
ghost use Rattle.std.specs.List.{slice_get};
ghost use Rattle.stores.specs.Meanings.{Meaning, Appends, Cuts, Filled};

use faults::fault::Fault;

// The most bytes that a store is made over.
pub const LONGEST: usize = 9_999_999;

pub trait Store {
    // What it holds, and how many bytes more it takes.
    ghost meaning: { Self → Meaning };

    fn len(&self) -> usize
        ensures { result ≡ length (meaning self.now).bytes };

    fn space(&self) -> usize
        ensures { result ≡ (meaning self.now).space };

    // The byte at a place, and none from the length on.
    fn byte_at(&self, place: usize) -> Option<u8>
        ensures { result ≡ slice_get (meaning self.now).bytes place };

    // Accepted exactly where there is space for all of it.
    fn append(&mut self, more: &[u8]) -> Result<(), Fault>
        ensures { Appends (meaning self.old) more.now result (meaning self.new) };

    // Accepted exactly where there are that many bytes; the first `n` stay.
    fn cut(&mut self, n: usize) -> Result<(), Fault>
        ensures { Cuts (meaning self.old) n result (meaning self.new) };

    // Fills the start of the buffer with the bytes from `from` on, as many as there are, and answers how many.
    fn read(&self, from: usize, buffer: &mut [u8]) -> usize
        ensures { Filled (meaning self.now).bytes from buffer.old result buffer.new }
    {
        let count = buffer.len().min(self.len().saturating_sub(from));
        let window = &mut buffer[..count];
        for (i, slot) in window.iter_mut().enumerate() {
            if let Some(b) = self.byte_at(from + i) {
                *slot = b;
            }
        }
        count
    }
}
