// Whether a change may be made in an open update, or why not. The contracts ask `TableOf file cells v`: the file and its revision are no values of
// the code, but what a contract is said for. Cells, changes and number stand side by side: the first two are lent from two parts of the book for one call.
ghost use Rattle.std.specs.Prelude.{◌≡◌};
ghost use Rattle.format.specs.Book.{body_answer, decide_put, decide_remove, may_put};
ghost use Rattle.format.specs.Bytes.{Bytes};
ghost use Rattle.format.specs.Frames.{body_fault};
ghost use Rattle.format.specs.Revisions.{Revision};
ghost use Rattle.writer.specs.Helds.{update_of};
ghost use Rattle.writer.specs.Tables.{TableOf};

use crate::held::Held;
use crate::table::{cell_at, is_used, is_worn_out};
use entries::cell::Cell;
use faults::fault::Fault;
use faults::reason::Reason;
use objects::body::check_body;

// Whether a number may be put: it is not 0, at most the next new one, and not free for good.
fn may_put(cells: &[Cell], held: &Held, n: usize) -> bool
    ensures { (file : Bytes) (v : Revision) → TableOf file cells.now v → result ≡ may_put v (update_of held.now) n }
{
    let size = cells.len();
    n != 0 && (n <= size || n - size <= held.new_numbers(size)) && !is_worn_out(cell_at(cells, n))
}

// What refuses a body that is put under a number.
fn body_answer(n: usize, bytes: &[u8]) -> Result<(), Fault>
    ensures { result ≡ body_answer n (body_fault bytes.now) }
{
    check_body(bytes).map_err(|fault| fault.of_object(n))
}

// Whether a body may be put under a number, given the table of the newest revision and the changes held.
pub fn decide_put(cells: &[Cell], held: &Held, n: usize, bytes: &[u8]) -> Result<(), Fault>
    ensures { (file : Bytes) (v : Revision) → TableOf file cells.now v → result ≡ decide_put v (update_of held.now) n bytes.now }
{
    if !may_put(cells, held, n) {
        return Err(Fault::refused(Reason::CannotPut, n));
    }
    if held.has(n) {
        return Err(Fault::refused(Reason::ChangedAlready, n));
    }
    body_answer(n, bytes)?;
    if !held.has_room(bytes.len()) {
        return Err(Fault::refused(Reason::UpdateFull, n));
    }
    Ok(())
}

// Whether an object may be removed, given the table of the newest revision, its Root and the changes held.
pub fn decide_remove(cells: &[Cell], root: u32, held: &Held, n: usize) -> Result<(), Fault>
    ensures { (file : Bytes) (v : Revision) → TableOf file cells.now v → v.root ≡ root → result ≡ decide_remove v (update_of held.now) n }
{
    if !is_used(cell_at(cells, n)) {
        return Err(Fault::refused(Reason::NotInUse, n));
    }
    // No `From` leads from `u32` to `usize`, and `try_from` would answer an error that never comes.
    if n == root as usize {
        return Err(Fault::refused(Reason::RootNumber, n));
    }
    if held.has(n) {
        return Err(Fault::refused(Reason::ChangedAlready, n));
    }
    if !held.has_room(0) {
        return Err(Fault::refused(Reason::UpdateFull, n));
    }
    Ok(())
}
