// What becomes of a number, and its object.
ghost use Rattle.std.specs.Prelude.{◌≡◌, ℕ, ◌≤◌, [], IfSome, Some, None, Option};
ghost use Rattle.std.specs.Option.{option_map};
ghost use Rattle.entries.specs.declared.cell.Cell.{Cell};
ghost use Rattle.entries.specs.Cells.{state_in};
ghost use Rattle.format.specs.Bytes.{Bytes};
ghost use Rattle.format.specs.Writing.{cell, entry_gen};
ghost use Rattle.writer.specs.Changes.{content_in};
ghost use Rattle.writer.specs.Drafts.{Adds, Room};
ghost use Rattle.writer.specs.Helds.{Kept, pool_of};
ghost use Rattle.writer.specs.Planned.{planned_of};
ghost use Rattle.writer.specs.Plans.{change_bytes, room_for};

use crate::change::Content;
use crate::draft::Draft;
use crate::held::Held;
use crate::plan::Planned;
use entries::cell::Cell;

// The generation of a number's entry, 0 if it has none: the definition has 0 there, since a new number's object is written with it.
#[tactic(auto, unfolding(format::specs::Writing::entry_gen))]
pub(crate) fn generation_of(before: Option<Cell>) -> u32
    ensures { (file : Bytes) → result ≡ entry_gen (option_map (state_in file) before) }
{
    match before {
        Some(Cell::Used { generation, .. } | Cell::Free { generation, .. }) => generation,
        None => 0,
    }
}

// What becomes of a number that has a change, given its generation before and where the next object goes.
#[tactic(auto, using(crate::proofs::Planning::body_planned, crate::proofs::Planning::removed_planned))]
fn changed(generation: u32, content: Content, at: u64) -> Planned
    requires { generation ≤ 65535 }
    ensures { (file pool : Bytes) (before : Option Cell) → generation ≡ entry_gen (option_map (state_in file) before) → result ≡ planned_of (cell at (option_map (state_in file) before) (Some (content_in pool content))) }
{
    match content {
        Content::Body { .. } => Planned::Wrote {
            generation,
            offset: at,
        },
        Content::Removed => Planned::Freed {
            generation: generation + 1,
        },
    }
}

// What becomes of a number that has none; 0 and 0 where it has no entry, as `cell` of the definitions has it.
#[tactic(auto, unfolding(format::specs::Writing::cell))]
fn unchanged(before: Option<Cell>) -> Planned
    ensures { (file : Bytes) (at : ℕ) → result ≡ planned_of (cell at (option_map (state_in file) before) None) }
{
    match before {
        Some(Cell::Used { .. }) => Planned::Kept,
        Some(Cell::Free { generation, next }) => Planned::Vacant { generation, next },
        None => Planned::Vacant {
            generation: 0,
            next: 0,
        },
    }
}

// What becomes of a number, given its cell before, its change, and where the next object goes.
pub(crate) fn planned(before: Option<Cell>, change: Option<Content>, at: u64) -> Planned
    requires { entry_gen (option_map (state_in []) before) ≤ 65535 }
    ensures { (file pool : Bytes) → result ≡ planned_of (cell at (option_map (state_in file) before) (option_map (content_in pool) change)) }
{
    match change {
        Some(content) => changed(generation_of(before), content, at),
        None => unchanged(before),
    }
}

// The object of a number, if its change puts one. A struct of number and generation would be made for `Draft::object` alone: the one comes from the
// count, the other from the cell.
pub(crate) fn write_change(
    draft: &mut Draft,
    held: &Held,
    n: u32,
    generation: u32,
    change: Option<Content>,
)
    requires kept { IfSome change (λ c. Kept held.now c) }
    requires room { Room draft.old (room_for (option_map (content_in (pool_of held.now)) change)) }
    ensures { Adds draft.old (change_bytes n generation (option_map (content_in (pool_of held.now)) change)) draft.new }
{
    if let Some(Content::Body { start, end }) = change {
        draft.object(n, generation, held.body(start, end));
    }
}
