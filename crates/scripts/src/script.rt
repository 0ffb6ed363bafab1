// An update in memory of its own.
ghost use Rattle.std.specs.Prelude.{◌≡◌, true};
ghost use Rattle.scripts.specs.Rows.{in_order, rows_of};

use crate::change::Change;
use std::collections::BTreeMap;

// The changes by their numbers, which have at most ten digits.
#[derive(Drop)]
pub struct Script {
    pub changes: BTreeMap<u64, Change<Vec<u8>>>,
    ghost ordered: { in_order 0 (rows_of changes.entries) ≡ true },
}
