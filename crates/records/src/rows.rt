// The checks of what a section lists. A number or a place in an entry has 64 bits, as `usize` has, and `as` goes over: there is no `From`.
ghost use Rattle.std.specs.Prelude.{◌≡◌, ℕ, ◌<◌, ◌≤◌, true, length, ℤ, IfSome};
ghost use Rattle.faults.specs.declared.reason.Reason.TheVariants.{ChainRule};
ghost use Rattle.format.specs.Chain.{in_bound};
ghost use Rattle.format.specs.Failures.{chain_fault};
ghost use Rattle.format.specs.Revisions.{covered, highest, slot_fits, slots_fit, under_size};
ghost use Rattle.entries.specs.Rows.{rows_of, slot_of};
ghost use Rattle.records.specs.Listing.{numbers_of, place_from};

use entries::entry::{Entry, Row};
use faults::fault::Fault;
use faults::layer::Layer;
use faults::reason::Reason;

// The highest object number.
pub const HIGHEST_NUMBER: u64 = 999;

// The highest generation of an object, and that of a free entry.
const HIGHEST_USED: u32 = 65_534;

const HIGHEST_FREE: u32 = 65_535;

// A rule of the chain or of a table is broken: in the section at `offset`, for that object, 0 if none, as the definitions and the printed fault have it.
pub fn broken_rule(offset: usize, number: u64) -> Fault
    ensures { result ≡ chain_fault ChainRule offset number }
{
    Fault::met(Reason::ChainRule, Layer::Chain, offset).of_object(number as usize)
}

// No number is too high.
pub fn in_bound(rows: &[Row]) -> bool
    ensures { result ≡ in_bound (rows_of rows.now) }
{
    rows.iter().all(|row| row.number <= HIGHEST_NUMBER)
}

fn under_size(n: u64, size: i64) -> bool
    ensures { result ≡ under_size n size }
{
    u64::try_from(size).is_ok_and(|size| n < size)
}

// An entry in use in a section at `offset`: its number, its generation, and where its object stands. Here and below they come one by one: the number
// from the row, the others from its entry, which a match took apart.
fn used_fits(offset: usize, number: u64, object: u64, generation: u32) -> bool
    ensures { (size : ℤ) → result ≡ slot_fits offset size number (slot_of (Entry.Used object generation)) }
{
    number >= 1 && generation <= HIGHEST_USED && object < offset as u64
}

// A free entry of a table of that Size: its generation and its link.
fn free_fits(size: i64, number: u64, next: u64, generation: u32) -> bool
    ensures { (offset : ℕ) → result ≡ slot_fits offset size number (slot_of (Entry.Free next generation)) }
{
    generation <= HIGHEST_FREE
        && (number != 0 || generation == HIGHEST_FREE)
        && under_size(next, size)
}

fn entry_fits(offset: usize, size: i64, row: Row) -> bool
    ensures { result ≡ slot_fits offset size row.number (slot_of row.entry) }
{
    match row.entry {
        Entry::Used {
            offset: object,
            generation,
        } => used_fits(offset, row.number, object, generation),
        Entry::Free { next, generation } => free_fits(size, row.number, next, generation),
    }
}

// Every entry fits; else the fault names the section and the number.
pub fn slots_fit(offset: usize, size: i64, rows: &[Row]) -> Result<(), Fault>
    ensures { result ≡ slots_fit offset size (rows_of rows.now) }
{
    // what is found is the refusal, and nothing found the good answer: so it is no `ok_or`, and a match is plainer than `map_or`
    match rows.iter().find(|row| !entry_fits(offset, size, **row)) {
        None => Ok(()),
        Some(row) => Err(broken_rule(offset, row.number)),
    }
}

// One more than the highest number: of those below `old`, and of those listed. That a Size is at most 1,000 is asked of the number, here and in `check_rows`
// and `Tables`: a Size is a plain number in rows, tables and revisions, and a type for it would be taken apart in each.
pub fn highest(old: usize, rows: &[Row]) -> usize
    requires { (in_bound (rows_of rows.now) ≡ true) × (old ≤ 1000) }
    ensures is { result ≡ highest old (rows_of rows.now) }
    ensures small { result ≤ 1000 }
{
    rows.iter()
        .fold(old, |size, row| size.max(row.number as usize + 1))
}

// The place of the first row of a number, as `place_from` of the definitions tells it, searched from the front: the rows of a section ascend, but no fact of the list says it, and a map would take
// memory after opening. There are at most 1,638 rows.
pub fn find_row(rows: &[Row], n: u64) -> Option<usize>
    ensures is { result ≡ place_from 0 n (numbers_of rows.now) }
    ensures within { IfSome result (λ i. i < length rows.now) }
{
    rows.iter().position(|row| row.number == n)
}

// Every number below Size is listed, or stood in the table before, which had `old` numbers: at most 1,000 numbers, each searched as above.
pub fn covered(size: usize, rows: &[Row], old: usize) -> bool
    ensures { result ≡ covered size 0 (rows_of rows.now) old }
{
    (old..size).all(|n| find_row(rows, n as u64).is_some())
}
