// Writing an update, in memory that was taken once.
ghost use Rattle.std.specs.Prelude.{◌≤◌};
ghost use Rattle.writer.specs.Drafts.{limit_of};
ghost use Rattle.writer.specs.Sizes.{most_bytes};

use crate::draft::Draft;
use crate::plan::Plan;

mod bodies;
mod methods;
mod section;

// As many bytes as any update can have: objects, entries, a trailer and the end.
pub const MOST_BYTES: usize = 131072;

// The bytes of an update, and what becomes of each number.
#[derive(Drop)]
pub struct Writer {
    draft: Draft,
    plan: Plan,
    ghost room: { most_bytes ≤ limit_of draft },
}
