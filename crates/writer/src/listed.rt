// The entries that an update lists. That a number is one of the plan's is asked where it is taken: a number with its plan would be a value made anew
// for each number of a loop.
ghost use Rattle.std.specs.Prelude.{◌≡◌, ◌+◌, ◌<◌, ◌≤◌, ◌∷◌, map, length, drop, IfSome};
ghost use Rattle.std.specs.List.{position};
ghost use Rattle.std.specs.Option.{option_map};
ghost use Rattle.entries.specs.Rows.{slot_of};
ghost use Rattle.format.specs.Writing.{entry_for, next_free};
ghost use Rattle.writer.specs.Listing.{front, is_free, listed_at};
ghost use Rattle.writer.specs.Planned.{cell_of};
ghost use Rattle.writer.specs.Plans.{plan_count, rows_of};

use crate::plan::{Plan, Planned};
use entries::entry::Entry;

// Whether a number is free, as planned.
fn is_free(one: Planned) -> bool
    ensures { result ≡ is_free one }
{
    matches!(one, Planned::Vacant { .. } | Planned::Freed { .. })
}

// The place of the first number that is free, if one is.
fn first_free(plan: &[Planned]) -> Option<usize>
    ensures is { result ≡ position is_free plan.now }
    ensures within { IfSome result (λ place. place < length plan.now) }
{
    plan.iter().position(|one| is_free(*one))
}

// The first free number from `from` on, or 0, as an entry has it. `usize` has no `From`: `as` is proved to lose nothing.
fn next_free(plan: &Plan, from: usize) -> u64
    requires { from ≤ plan_count plan.now }
    ensures { result ≡ next_free from (map cell_of (drop from (rows_of plan.now))) }
{
    first_free(&plan.as_slice()[from..]).map_or(0, |place| (from + place) as u64)
}

// The entry of a number that stays free, if it is listed: 0 is, and each whose next free number changes.
#[tactic(auto, using(crate::proofs::Listing::same_link, crate::proofs::Listing::new_link, crate::proofs::Listing::zero_link))]
fn vacant_entry(n: usize, link: u64, generation: u32, next: u64) -> Option<Entry>
    ensures { option_map slot_of result ≡ entry_for n link (cell_of (Planned.Vacant generation next)) }
{
    if n != 0 && link == next {
        return None;
    }
    Some(Entry::Free {
        next: link,
        generation,
    })
}

// The entry of a number, if it is listed.
pub(crate) fn entry_of(plan: &Plan, n: usize) -> Option<Entry>
    requires { n < plan_count plan.now }
    ensures { listed_at (rows_of plan.now) n ≡ option_map slot_of result ∷ listed_at (rows_of plan.now) (n + 1) }
{
    match plan.as_slice()[n] {
        Planned::Kept => None,
        Planned::Vacant { generation, next } => {
            vacant_entry(n, next_free(plan, n + 1), generation, next)
        }
        Planned::Wrote { generation, offset } => Some(Entry::Used { offset, generation }),
        Planned::Freed { generation } => Some(Entry::Free {
            next: next_free(plan, n + 1),
            generation,
        }),
    }
}

// The place behind the unbroken run of listed numbers from a number on.
pub(crate) fn run_end(plan: &Plan, from: usize) -> usize
    requires { from ≤ plan_count plan.now }
    ensures is { result ≡ from + length (front (listed_at (rows_of plan.now) from)) }
    ensures within { result ≤ plan_count plan.now }
{
    let len = plan.len();
    (from..len)
        .find(|n| entry_of(plan, *n).is_none())
        .unwrap_or(len)
}
