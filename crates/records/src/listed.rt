// The objects that a section lists. A number and a place that an entry gives have 64 bits, as `usize` has, and `as` goes over: there is no `From`.
ghost use Rattle.std.specs.Prelude.{◌≡◌, ◌<◌, true, IfOk};
ghost use Rattle.format.specs.Revisions.{state_of};
ghost use Rattle.entries.specs.Cells.{EndsBy};
ghost use Rattle.entries.specs.Rows.{slot_of};
ghost use Rattle.records.specs.Objects.{FramedCell, state_read};

use crate::rows::broken_rule;
use crate::scratch::Scratch;
use crate::window::Window;
use entries::cell::Cell;
use entries::entry::{Entry, Row};
use faults::fault::Fault;
use objects::frame::Frame;
use stores::store::Store;

// The cell of an object that was read for a row of a section at `offset`: it bears the row's number and generation. They come from two places, the
// number from the row and the generation from its entry: a pair of them would be made for this call alone.
fn framed_cell(offset: usize, number: u64, generation: u32, frame: Frame) -> Result<Cell, Fault>
    ensures { FramedCell offset number generation frame result }
{
    if u64::from(frame.number) != number || frame.generation != generation {
        return Err(broken_rule(offset, number));
    }
    Ok(Cell::Used {
        generation,
        start: frame.start,
        end: frame.end,
    })
}

// What a row of a section at `offset` stands for: a free entry by itself, one in use by its object, which ends before the section. Store and window
// are two values, as in `open.rt`.
fn row_cell<S: Store>(
    store: &S,
    window: &mut Window,
    offset: usize,
    row: Row,
) -> Result<Cell, Fault>
    ensures is { state_of (S.Store.meaning store.now).bytes offset row.number (slot_of row.entry) ≡ state_read (S.Store.meaning store.now).bytes result }
    ensures ends { ((slot_of row.entry).in_use ≡ true → (slot_of row.entry).field < offset) → IfOk result (EndsBy offset) }
{
    match row.entry {
        Entry::Used {
            offset: object,
            generation,
        } => {
            let frame = window
                .frame_at(store, object as usize, offset)
                .map_err(|fault| fault.of_object(row.number as usize))?;
            framed_cell(offset, row.number, generation, frame)
        }
        Entry::Free { next, generation } => Ok(Cell::Free { generation, next }),
    }
}

impl Scratch {
    ghost use Rattle.entries.specs.Reserving.{items_of};
    ghost use Rattle.opening.specs.Held.{rows_held};
    ghost use Rattle.records.specs.Objects.{ReadsObjects};

    // Reads the objects of the section at `offset` whose rows are held, row by row, into numbered cells in the place of those held.
    pub(crate) fn read_objects<S: Store>(&mut self, store: &S, offset: usize) -> Result<(), Fault>
        ensures is { ReadsObjects (S.Store.meaning store.now).bytes offset (rows_held self.old.rows) (items_of self.new.listed) result }
        ensures kept { self.new.offsets ≡ self.old.offsets }
    {
        self.listed.clear();
        for row in self.rows.as_slice() {
            let cell = row_cell(store, &mut self.window, offset, *row)?;
            self.listed.push((row.number, cell));
        }
        Ok(())
    }
}
