// Cross-reference sections and their trailers.
ghost use Rattle.std.specs.Prelude.{◌≡◌, ◌+◌, ◌*◌, ◌^◌, ◌<◌, [], ◌∷◌, ◌++◌, length, Some, codes};
ghost use Rattle.format.specs.Writing.{padded, prev_bytes, run_on, slot_bytes, slots_on};
ghost use Rattle.writer.specs.Drafts.{Adds, Room};
ghost use Rattle.writer.specs.Pieces.{close_bytes, line_bytes, pair_bytes, size_bytes, slot_of, slots_of};

use super::Draft;
use crate::entry::Entry;
use crate::ten_digits::TenDigits;

impl Draft {
    // The line above a section's runs.
    pub fn section_line(&mut self)
        requires { Room self.old 5 }
        ensures { Adds self.old (codes "xref\n") self.new }
    {
        self.text(b"xref\n");
    }

    // The 20 bytes of an entry.
    #[tactic(auto, using(crate::proofs::Joined::adds_as, crate::proofs::Pieces::used_marked, crate::proofs::Pieces::free_marked))]
    pub fn entry(&mut self, one: Entry)
        requires { Room self.old 20 }
        ensures { Adds self.old (slot_bytes (slot_of one)) self.new }
    {
        match one {
            Entry::Used { offset, generation } => self.marked_entry(offset, generation, b'n'),
            Entry::Free { next, generation } => self.marked_entry(next, generation, b'f'),
        }
    }

    // An entry by its ten digits, its generation and its mark.
    #[tactic(auto, using(sections::proofs::Digits::padded_length))]
    fn marked_entry(&mut self, field: u64, generation: u32, mark: u8)
        requires { Room self.old 20 }
        ensures { Adds self.old (padded 10 field (32 ∷ padded 5 generation (32 ∷ mark ∷ 32 ∷ 10 ∷ []))) self.new }
    {
        self.ten_digits(field);
        self.byte(b' ');
        self.padded(5, u64::from(generation));
        self.byte(b' ');
        self.byte(mark);
        self.entry_end();
    }

    // Ten digits, with zeros in front.
    fn ten_digits(&mut self, n: u64)
        requires { Room self.old 10 }
        ensures { Adds self.old (padded 10 n []) self.new }
    {
        self.padded(10, n);
    }

    // The two bytes that end an entry.
    fn entry_end(&mut self)
        requires { Room self.old 2 }
        ensures { Adds self.old (codes " \n") self.new }
    {
        self.text(b" \n");
    }

    // Entries, one behind the other.
    pub fn entries(&mut self, all: &[Entry])
        requires { Room self.old (20 * length all.now) }
        ensures { Adds self.old (slots_on (slots_of all.now) []) self.new }
    {
        for one in all {
            self.entry(*one);
        }
    }

    // The line above a run: its first number, and how many there are.
    #[tactic(auto, using(crate::proofs::Lengths::line_length, crate::proofs::Lengths::spaced_length))]
    pub fn run_line(&mut self, first: u32, count: TenDigits)
        requires { Room self.old (length (line_bytes first count.value)) }
        ensures { Adds self.old (line_bytes first count.value) self.new }
    {
        self.number(b"", TenDigits::from(first), b" ");
        self.number(b"", count, b"\n");
    }

    // A run: its line and its entries. That ten digits can say how many they are is asked here, since no slice's type bounds its length.
    // `usize` has no `From`: `as` is proved to lose nothing.
    #[tactic(auto, using(crate::proofs::Lengths::run_of_length))]
    pub fn run(&mut self, first: u32, all: &[Entry])
        requires small { length all.now < 10 ^ 10 }
        requires room { Room self.old (length (run_on (first, slots_of all.now) [])) }
        ensures { Adds self.old (run_on (first, slots_of all.now) []) self.new }
    {
        let count = TenDigits {
            value: all.len() as u64,
        };
        self.run_line(first, count);
        self.entries(all);
    }

    // The lines above a trailer's entries.
    pub fn trailer_lines(&mut self)
        requires { Room self.old 11 }
        ensures { Adds self.old (codes "trailer\n<<\n") self.new }
    {
        self.text(b"trailer\n<<\n");
    }

    // A trailer's entry with the key and the value as they are given.
    #[tactic(auto, using(crate::proofs::Joined::adds_then), unfolding(crate::specs::Pieces::pair_bytes))]
    pub fn pair(&mut self, key: &[u8], value: &[u8])
        requires { Room self.old (length key.now + length value.now + 2) }
        ensures { Adds self.old (pair_bytes key.now value.now) self.new }
    {
        self.text(key);
        self.byte(b' ');
        self.text(value);
        self.byte(b'\n');
    }

    // A trailer's Size.
    #[tactic(auto, using(crate::proofs::Lengths::size_length))]
    pub fn size(&mut self, size: u32)
        requires { Room self.old (length (size_bytes size)) }
        ensures { Adds self.old (size_bytes size) self.new }
    {
        self.number(b"/Size ", TenDigits::from(size), b"\n");
    }

    // A trailer's Prev: where the section before starts.
    #[tactic(auto, using(crate::proofs::Lengths::prev_length), unfolding(format::specs::Writing::prev_bytes))]
    pub fn prev(&mut self, offset: TenDigits)
        requires { Room self.old (length (prev_bytes (Some offset.value))) }
        ensures { Adds self.old (prev_bytes (Some offset.value)) self.new }
    {
        self.number(b"/Prev ", offset, b"\n");
    }

    // The end of a section that starts at an offset.
    #[tactic(auto, using(crate::proofs::Lengths::close_length), unfolding(crate::specs::Pieces::close_bytes))]
    pub fn close(&mut self, offset: TenDigits)
        requires { Room self.old (length (close_bytes offset.value)) }
        ensures { Adds self.old (close_bytes offset.value) self.new }
    {
        self.number(b">>\nstartxref\n", offset, b"\n%%EOF\n");
    }
}
