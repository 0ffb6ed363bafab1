// The runs of entries that an update lists. Draft and plan are lent side by side: as methods of `Writer`, the functions would each promise besides
// that the plan is kept. That a number is one of the plan's is asked in each: a number with its plan would be a value made anew for each number of a loop.
ghost use Rattle.std.specs.Prelude.{◌≡◌, ◌+◌, ◌*◌, ◌<◌, ◌≤◌, [], length};
ghost use Rattle.format.specs.Writing.{run_on, runs, runs_on, slots_on};
ghost use Rattle.writer.specs.Drafts.{Adds, Room, count};
ghost use Rattle.writer.specs.Listing.{RunsTo, front, listed_at};
ghost use Rattle.writer.specs.Plans.{plan_count, rows_of};
ghost use Rattle.writer.specs.Sizes.{most_numbers};

use crate::draft::Draft;
use crate::listed::{entry_of, run_end};
use crate::plan::Plan;
use crate::ten_digits::TenDigits;

// The entries of an unbroken run from a number up to the number behind it, by number, since an entry depends on the numbers behind its own.
fn write_entries(draft: &mut Draft, plan: &Plan, first: usize, end: usize)
    requires end { end ≡ first + length (front (listed_at (rows_of plan.now) first)) }
    requires within { end ≤ plan_count plan.now }
    requires room { Room draft.old (20 * length (front (listed_at (rows_of plan.now) first))) }
    ensures { Adds draft.old (slots_on (front (listed_at (rows_of plan.now) first)) []) draft.new }
{
    for n in first..end {
        if let Some(entry) = entry_of(plan, n) {
            draft.entry(entry);
        }
    }
}

// An unbroken run from a number on: the number behind it. `usize` has no `From`: `as` is proved to lose nothing.
#[tactic(auto, using(crate::proofs::Lengths::line_at_most))]
fn write_run(draft: &mut Draft, plan: &Plan, first: usize) -> usize
    requires within { first ≤ plan_count plan.now }
    requires room { Room draft.old (22 + 20 * length (front (listed_at (rows_of plan.now) first))) }
    ensures adds { Adds draft.old (run_on (first, front (listed_at (rows_of plan.now) first)) []) draft.new }
    ensures is { result ≡ first + length (front (listed_at (rows_of plan.now) first)) }
    ensures within { result ≤ plan_count plan.now }
{
    let end = run_end(plan, first);
    draft.run_line(first as u32, TenDigits::from((end - first) as u32));
    write_entries(draft, plan, first, end);
    end
}

// A number that is not listed, or the run that it begins: the number behind.
fn write_from(draft: &mut Draft, plan: &Plan, n: usize) -> usize
    requires within { n < plan_count plan.now }
    requires room { Room draft.old (22 + 20 * length (front (listed_at (rows_of plan.now) n))) }
    ensures runs { RunsTo (rows_of plan.now) n result draft.old draft.new }
    ensures within { (n < result) × (result ≤ plan_count plan.now) }
{
    if entry_of(plan, n).is_some() {
        write_run(draft, plan, n)
    } else {
        n + 1
    }
}

// All runs of a plan. Each step goes as far as a run reaches, and so no range of numbers tells the steps.
pub(crate) fn write_runs(draft: &mut Draft, plan: &Plan)
    requires { Room draft.old (42 * most_numbers) }
    ensures adds { Adds draft.old (runs_on (runs 0 (listed_at (rows_of plan.now) 0)) []) draft.new }
    ensures grown { count draft.new ≤ count draft.old + 42 * most_numbers }
{
    let mut n = 0;
    while n < plan.len() {
        n = write_from(draft, plan, n);
    }
}
