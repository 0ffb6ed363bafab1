// Making a writer, having it write an update, and asking it.
ghost use Rattle.std.specs.Prelude.{◌≡◌, [], length, IfOk};
ghost use Rattle.format.specs.Bytes.{Bytes};
ghost use Rattle.format.specs.Revisions.{Revision};
ghost use Rattle.format.specs.Writing.{update_bytes, update_objects};
ghost use Rattle.writer.specs.Helds.{update_of};
ghost use Rattle.writer.specs.Tables.{TableOf};
ghost use Rattle.writer.specs.Trailers.{ReadAs};
ghost use Rattle.writer.specs.Writers.{bytes_of};

use super::{MOST_BYTES, Writer};
use crate::draft::Draft;
use crate::held::Held;
use crate::newest::Newest;
use crate::plan::Plan;
use crate::ten_digits::TenDigits;
use std::alloc::{AllocError, Global};

impl Writer {
    // Nothing written yet, with room for any update.
    pub fn new(heap: Global) -> Result<Writer, AllocError>
        ensures { IfOk result (λ w. bytes_of w ≡ []) }
    {
        let draft = Draft::new(heap, MOST_BYTES)?;
        let plan = Plan::new(heap)?;
        Ok(Writer { draft, plan })
    }

    // Writes an update behind the newest revision of a file. It answers how many bytes the objects are: the section stands behind them.
    // `held` is the update, `newest` what it is written behind: they are lent side by side from two parts of the book.
    // `usize` has no `From`: `as` is proved to lose nothing.
    pub fn write(&mut self, held: &Held, newest: &Newest) -> usize
        ensures { (file : Bytes) (v : Revision) → TableOf file newest.now.cells.now v → v.offset ≡ newest.now.offset → ReadAs newest.now.window.now newest.now.inside v.trailer → (bytes_of self.new ≡ update_bytes newest.now.len v (update_of held.now)) × (result ≡ length (update_objects newest.now.len v (update_of held.now))) }
    {
        self.draft.clear();
        let old = newest.cells.len();
        self.write_objects(newest, held, old + held.new_numbers(old));
        let objects = self.len();
        let at = TenDigits {
            value: (newest.len + objects) as u64,
        };
        self.write_section(newest, at);
        objects
    }

    // How many bytes are written.
    pub fn len(&self) -> usize
        ensures { result ≡ length (bytes_of self.now) }
    {
        self.draft.len()
    }

    // The bytes written.
    pub fn as_slice(&self) -> &[u8]
        ensures { result.now ≡ bytes_of self.now }
    {
        self.draft.as_slice()
    }
}
