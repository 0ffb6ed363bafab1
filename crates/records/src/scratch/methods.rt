// Making the memory, and what its window shows.
ghost use Rattle.std.specs.Prelude.{◌≡◌};
ghost use Rattle.records.specs.Trailers.{seen_by};

use super::Scratch;
use crate::window::Window;
use entries::reserved::Reserved;
use opening::rows::Rows;
use std::alloc::{AllocError, Global};

impl Scratch {
    pub fn new(heap: Global) -> Result<Scratch, AllocError> {
        let window = Window::new(heap)?;
        let rows = Rows::new(heap)?;
        let listed = Reserved::new(heap)?;
        let offsets = Reserved::new(heap)?;
        Ok(Scratch {
            window,
            rows,
            listed,
            offsets,
        })
    }

    // The bytes in the window.
    pub fn seen(&self) -> &[u8]
        ensures { result.now ≡ seen_by self.now }
    {
        self.window.seen()
    }
}
