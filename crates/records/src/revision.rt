// The revision that a section makes.
ghost use Rattle.std.specs.Prelude.{◌≡◌, ◌+◌, ◌<◌, ◌≤◌, List, length, MatchResult};
ghost use Rattle.format.specs.Book.{blank, newest_or};
ghost use Rattle.format.specs.Revisions.{Revision};
ghost use Rattle.entries.specs.Tables.{TablesOf};
ghost use Rattle.records.specs.Tabled.{Revised, Tabled, cells_held, revisions_held};

use crate::check::{check_rows, subsections_fit};
use crate::revision_tables::Tables;
use crate::scratch::Scratch;
use faults::fault::Fault;
use stores::store::Store;

// Reads the revision that the section at `offset` makes behind those in the tables, and adds its table. Where it is refused the tables stay as they are.
// Memory for reading and tables are two values here too: every question is asked of the tables alone.
pub fn read_revision<S: Store>(
    store: &S,
    scratch: &mut Scratch,
    tables: &mut Tables,
    offset: usize,
) -> Result<(), Fault>
    requires few { length (revisions_held tables.old) < 64 }
    requires tabled { Tabled (revisions_held tables.old) (cells_held tables.old) }
    ensures is { (h : List Revision) → TablesOf (S.Store.meaning store.now).bytes h (revisions_held tables.old) (cells_held tables.old) → (newest_or blank h).offset ≤ offset → Revised (S.Store.meaning store.now).bytes h offset result (revisions_held tables.new) (cells_held tables.new) }
    ensures tabled { Tabled (revisions_held tables.new) (cells_held tables.new) }
    ensures offsets { scratch.new.offsets ≡ scratch.old.offsets }
    ensures grown { MatchResult result (λ _. length (revisions_held tables.new) ≡ length (revisions_held tables.old) + 1) (λ _. tables.new ≡ tables.old) }
{
    let link = scratch.read_link(store, offset)?;
    let fits = subsections_fit(tables.is_empty(), link.one_from_zero);
    let size = check_rows(fits, link, scratch.rows.as_slice(), tables.newest_cells())?;
    scratch.read_objects(store, offset)?;
    tables.push(link, size, scratch.listed.as_slice());
    Ok(())
}
