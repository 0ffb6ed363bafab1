// The objects of an update, number by number. `held` is the update, `newest` what it is written behind: two parts of the book, lent side by side.
ghost use Rattle.std.specs.Prelude.{◌≡◌, ◌+◌, ◌<◌, ◌≤◌};
ghost use Rattle.format.specs.Bytes.{Bytes};
ghost use Rattle.format.specs.Revisions.{find};
ghost use Rattle.writer.specs.Drafts.{Room, count, limit_of};
ghost use Rattle.writer.specs.Helds.{update_of};
ghost use Rattle.writer.specs.Plans.{Writes, WritesAll, plan_count, room_for};
ghost use Rattle.writer.specs.Sizes.{most_numbers, most_object_bytes};

use super::Writer;
use crate::held::Held;
use crate::newest::Newest;
use crate::numbers::{generation_of, planned, write_change};
use crate::table::cell_at;

impl Writer {
    // A number: its object goes into the draft, what becomes of it into the plan. `usize` has no `From`: `as` is proved to lose nothing.
    fn write_number(&mut self, newest: &Newest, held: &Held, n: usize)
        requires few { plan_count self.old.plan < most_numbers }
        requires number { n < most_numbers }
        requires room { Room self.old.draft (room_for (find n (update_of held.now))) }
        ensures writes { (file : Bytes) → Writes file newest.now.cells.now (update_of held.now) newest.now.len n self.old.draft self.old.plan self.new.draft self.new.plan }
        ensures count { plan_count self.new.plan ≡ plan_count self.old.plan + 1 }
        ensures grown { count self.new.draft ≤ count self.old.draft + room_for (find n (update_of held.now)) }
        ensures limit { limit_of self.new.draft ≡ limit_of self.old.draft }
    {
        let before = cell_at(newest.cells, n);
        let change = held.find(n);
        let at = newest.len + self.draft.len();
        write_change(
            &mut self.draft,
            held,
            n as u32,
            generation_of(before),
            change,
        );
        self.plan.push(planned(before, change, at as u64));
    }

    // All numbers below a size: the objects into the draft, what becomes of the numbers into the plan.
    pub(super) fn write_objects(&mut self, newest: &Newest, held: &Held, size: usize)
        requires number { size ≤ most_numbers }
        requires empty { count self.old.draft ≡ 0 }
        requires room { Room self.old.draft most_object_bytes }
        ensures writes { (file : Bytes) → WritesAll file newest.now.cells.now (update_of held.now) newest.now.len size self.old.draft self.new.draft self.new.plan }
        ensures count { plan_count self.new.plan ≡ size }
        ensures grown { count self.new.draft ≤ most_object_bytes }
    {
        self.plan.clear();
        // by number: one may stand in the table, in the update or in both, so no list has them all
        for n in 0..size {
            self.write_number(newest, held, n);
        }
    }
}
