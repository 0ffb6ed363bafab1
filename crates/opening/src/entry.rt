// The entries of a subsection.
ghost use Rattle.std.specs.Prelude.{◌≡◌, ◌||◌, ◌==◌};
ghost use Rattle.entries.specs.Rows.{slot_of};
ghost use Rattle.format.specs.Lines.{slot, use_mark, slot_end, slot_ends};
ghost use Rattle.opening.specs.Parts.{Passes, Takes};

use crate::lines::{digits_of, exact};
use crate::part::Lack;
pub use entries::entry::Entry;
use lexer::reader::Lexer;

// `n`, for an entry in use, or `f`.
// Whether it is in use is a truth value until `entry_of` makes the enum: an enum of two marks would be turned into `Entry` by the same `if`, and the
// definition has a truth value here.
fn use_mark(at: Lexer<'_>) -> Result<(bool, usize), Lack>
    ensures { Takes (λ b. b) use_mark at.entry.src.now at.entry.place result }
{
    // no byte, one of the two marks, another: the cases of one match
    match at.src.get(at.place) {
        None => Err(Lack::Short),
        Some(b'n') => Ok((true, at.place + 1)),
        Some(b'f') => Ok((false, at.place + 1)),
        Some(_) => Err(Lack::Misfit),
    }
}

// The two last bytes of an entry: space CR, space LF or CR LF.
#[tactic(auto, using(std::proofs::lemmas::Bool::Decides::nat_tests), unfolding(format::specs::Lines::slot_ends))]
fn ends_entry(x: u8, y: u8) -> bool
    ensures { result ≡ slot_ends x y }
{
    matches!((x, y), (b' ', b'\r' | b'\n') | (b'\r', b'\n'))
}

// The first of them.
#[tactic(auto, using(std::proofs::lemmas::Bool::Decides::nat_tests))]
fn starts_end(x: u8) -> bool
    ensures { result ≡ (x == 32 || x == 13) }
{
    matches!(x, b' ' | b'\r')
}

fn entry_end(at: Lexer<'_>) -> Result<usize, Lack>
    ensures { Passes slot_end at.entry.src.now at.entry.place result }
{
    match &at.src[at.place..] {
        [] => Err(Lack::Short),
        [x] if starts_end(*x) => Err(Lack::Short),
        [x, y, ..] if ends_entry(*x, *y) => Ok(at.place + 2),
        _ => Err(Lack::Misfit),
    }
}

// The entry that has these ten digits: an object's offset, or the next free number.
fn entry_of(in_use: bool, field: u64, generation: u32) -> Entry
    ensures { slot_of result ≡ record { in_use = in_use; field = field; gen = generation } }
{
    if in_use {
        Entry::Used {
            offset: field,
            generation,
        }
    } else {
        Entry::Free {
            next: field,
            generation,
        }
    }
}

// The 20 bytes of an entry.
pub fn entry_at(at: Lexer<'_>) -> Result<(Entry, usize), Lack>
    ensures { Takes slot_of slot at.entry.src.now at.entry.place result }
{
    let (field, field_end) = digits_of(10, at)?;
    let gap_end = exact(at.to(field_end), b" ")?;
    let (generation, generation_end) = digits_of(5, at.to(gap_end))?;
    let mark_start = exact(at.to(generation_end), b" ")?;
    let (in_use, mark_end) = use_mark(at.to(mark_start))?;
    let end = entry_end(at.to(mark_end))?;
    // no `try_from`: five digits spell less than 2^32, so that nothing could be refused
    Ok((entry_of(in_use, field, generation as u32), end))
}
