// The newest revision of a file, as an update needs it that is written behind the file.
ghost use Rattle.std.specs.Prelude.{◌≡◌, ◌≤◌, true, length};
ghost use Rattle.format.specs.Book.{most_size};
ghost use Rattle.format.specs.Chain.{window_bytes};
ghost use Rattle.format.specs.Revisions.{file_bytes};
ghost use Rattle.writer.specs.Plans.{GenerationsFit, GenerationsFit-prop};
ghost use Rattle.writer.specs.Trailers.{is_read};

use entries::cell::Cell;

#[derive(Clone, Copy)]
pub struct Newest<'a> {
    // its table
    pub cells: &'a [Cell],
    // how many bytes the file has
    pub len: usize,
    // where its section starts
    pub offset: usize,
    // Bytes of the file, and the place among them from which its trailer's entries stand: two values, as `next_entry` takes them, which copies
    // the entries, and as `Readable` speaks of them.
    pub window: &'a [u8],
    pub inside: usize,
    ghost small: { length cells.now ≤ most_size },
    ghost generations: { GenerationsFit cells.now } by { GenerationsFit-prop cells.now },
    ghost short: { len ≤ file_bytes },
    ghost placed: { offset ≤ file_bytes },
    ghost narrow: { length window.now ≤ window_bytes },
    ghost readable: { is_read window.now inside ≡ true },
}
