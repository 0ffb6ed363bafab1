// The calls of the tables.
ghost use Rattle.std.specs.Prelude.{◌≡◌, ◌+◌, ◌<◌, ◌≤◌, [], ◌∷◌, ◌++◌, length, take, IfOk, ◌==◌};
ghost use Rattle.records.specs.Laid.{Covers, laid};
ghost use Rattle.records.specs.Tabled.{Tabled, cells_held, held_as, last_first, newest_cells, revisions_held};

use super::Tables;
use crate::link::Link;
use crate::table::lay;
use entries::cell::Cell;
use entries::reserved::Reserved;
use entries::revision::Revision;
use std::alloc::{AllocError, Global};

impl Tables {
    // No tables, with memory for all that a file can have.
    pub fn new(heap: Global) -> Result<Tables, AllocError>
        ensures { IfOk result (λ t. (revisions_held t ≡ []) × (cells_held t ≡ [])) }
    {
        let revisions = Reserved::new(heap)?;
        let cells = Reserved::new(heap)?;
        Ok(Tables { revisions, cells })
    }

    // No tables again, in the same memory.
    pub fn clear(&mut self)
        ensures revisions { revisions_held self.new ≡ [] }
        ensures cells { cells_held self.new ≡ [] }
    {
        self.revisions.clear();
        self.cells.clear();
    }

    // How many revisions there are.
    pub fn len(&self) -> usize
        ensures { result ≡ length (revisions_held self.now) }
    {
        self.revisions.len()
    }

    // Whether there are none.
    pub(crate) fn is_empty(&self) -> bool
        ensures { result ≡ (length (revisions_held self.now) == 0) }
    {
        self.revisions().is_empty()
    }

    // The revisions, the oldest first.
    pub fn revisions(&self) -> &[Revision]
        ensures { result.now ≡ revisions_held self.now }
    {
        self.revisions.as_slice()
    }

    // The cells of all tables.
    pub fn cells(&self) -> &[Cell]
        ensures { result.now ≡ cells_held self.now }
    {
        self.cells.as_slice()
    }

    // Only so many revisions and cells, from the oldest on.
    pub fn cut(&mut self, revisions: usize, cells: usize)
        ensures revisions { revisions_held self.new ≡ take revisions (revisions_held self.old) }
        ensures cells { cells_held self.new ≡ take cells (cells_held self.old) }
    {
        self.revisions.truncate(revisions);
        self.cells.truncate(cells);
    }

    // Where the newest table starts.
    fn newest_start(&self) -> usize
        requires { Tabled (revisions_held self.now) (cells_held self.now) }
        ensures is { result ≡ last_first (length (cells_held self.now)) (revisions_held self.now) }
        ensures within { result ≤ length (cells_held self.now) }
        ensures small { length (cells_held self.now) ≤ result + 1000 }
    {
        self.revisions()
            .last()
            .map_or(self.cells.len(), |revision| revision.first)
    }

    // The cells of the newest table, and none where there is none.
    pub(crate) fn newest_cells(&self) -> &[Cell]
        requires { Tabled (revisions_held self.now) (cells_held self.now) }
        ensures is { result.now ≡ newest_cells (revisions_held self.now) (cells_held self.now) }
        ensures small { length result.now ≤ 1000 }
    {
        &self.cells()[self.newest_start()..self.cells.len()]
    }

    // A table more: of a revision of that Size whose section lists these cells. What the checks and the reading of its objects give meets here alone.
    pub(crate) fn push(&mut self, link: Link, size: usize, listed: &[(u64, Cell)])
        requires few { length (revisions_held self.old) < 64 }
        requires tabled { Tabled (revisions_held self.old) (cells_held self.old) }
        requires small { size ≤ 1000 }
        requires covered { Covers size listed.now (length (newest_cells (revisions_held self.old) (cells_held self.old))) }
        ensures revisions { revisions_held self.new ≡ revisions_held self.old ++ held_as link size (length (cells_held self.old)) ∷ [] }
        ensures cells { cells_held self.new ≡ cells_held self.old ++ laid size 0 listed.now (newest_cells (revisions_held self.old) (cells_held self.old)) }
        ensures len { length (cells_held self.new) ≡ length (cells_held self.old) + size }
    {
        let before = self.newest_start();
        let first = self.cells.len();
        lay(&mut self.cells, before, size, listed);
        self.revisions.push(Revision {
            offset: link.offset,
            end: link.end,
            size,
            root: link.told.root,
            root_generation: link.told.root_generation,
            first,
        });
    }
}
