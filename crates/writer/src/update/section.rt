// The section of an update.
ghost use Rattle.std.specs.Prelude.{◌++◌, Some};
ghost use Rattle.format.specs.Objects.{Entries};
ghost use Rattle.format.specs.Writing.{prev_bytes, runs, section_bytes};
ghost use Rattle.writer.specs.Drafts.{Adds, Room};
ghost use Rattle.writer.specs.Listing.{listed_at};
ghost use Rattle.writer.specs.Pieces.{close_bytes, size_bytes};
ghost use Rattle.writer.specs.Plans.{plan_count, rows_of};
ghost use Rattle.writer.specs.Sizes.{most_section_bytes};
ghost use Rattle.writer.specs.Trailers.{ReadAs};

use super::Writer;
use crate::draft::Draft;
use crate::newest::Newest;
use crate::runs::write_runs;
use crate::ten_digits::TenDigits;
use crate::trailer::copy_entries;

// The end of a section that starts at an offset: Size, Prev and the tail.
#[tactic(auto, using(crate::proofs::Lengths::size_at_most, crate::proofs::Lengths::prev_at_most, crate::proofs::Lengths::close_at_most, crate::proofs::Joined::adds_then))]
fn write_tail(draft: &mut Draft, size: u32, prev: TenDigits, at: TenDigits)
    requires { Room draft.old 64 }
    ensures { Adds draft.old (size_bytes size ++ (prev_bytes (Some prev.value) ++ close_bytes at.value)) draft.new }
{
    draft.size(size);
    draft.prev(prev);
    draft.close(at);
}

impl Writer {
    // A section that starts at an offset: the entries that the plan lists, the entries copied from the newest trailer, and its end.
    // `usize` has no `From`: `as` is proved to lose nothing.
    #[tactic(auto, using(crate::proofs::Copied::read_some))]
    pub(super) fn write_section(&mut self, newest: &Newest, at: TenDigits)
        requires { Room self.old.draft most_section_bytes }
        ensures { (es : Entries) → ReadAs newest.now.window.now newest.now.inside es → Adds self.old.draft (section_bytes at.value (runs 0 (listed_at (rows_of self.old.plan) 0)) es (plan_count self.old.plan) (Some newest.now.offset)) self.new.draft }
    {
        self.draft.section_line();
        write_runs(&mut self.draft, &self.plan);
        self.draft.trailer_lines();
        copy_entries(&mut self.draft, newest.window, newest.inside);
        let size = self.plan.len() as u32;
        let prev = TenDigits {
            value: newest.offset as u64,
        };
        write_tail(&mut self.draft, size, prev, at);
    }
}
