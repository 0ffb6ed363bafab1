// Names, compared by the bytes that they stand for.
ghost use Rattle.std.specs.Prelude.{◌≡◌, ◌+◌, ◌<◌, ◌≤◌, ◌∷◌, length, drop, None, slice_index};
ghost use Rattle.std.specs.Iterator.{YieldsFirst, item_count};
ghost use Rattle.format.specs.Bytes.{same};
ghost use Rattle.format.specs.Names.{decode, plain};
ghost use Rattle.lexer.specs.Spelled.{hex_byte, spelled, checked};

use crate::bytes::hex_digit;
use crate::flaw::Flaw;
use crate::run::Run;

// The byte that two hex digits behind a `#` give, which is not 0.
fn hex_byte(high: u8, low: u8) -> Option<u8>
    ensures { result ≡ hex_byte high low }
{
    let h = hex_digit(high)?;
    let l = hex_digit(low)?;
    let byte = h * 16 + l;
    if byte == 0 { None } else { Some(byte) }
}

// The byte that the `#` at `at` gives with the two bytes behind it.
fn escaped(run: &[u8], at: usize) -> Option<u8>
    requires { at < length run.now }
    ensures far { at + 2 < length run.now → result ≡ hex_byte (slice_index run.now (at + 1)) (slice_index run.now (at + 2)) }
    ensures near { length run.now ≤ at + 2 → result ≡ None }
{
    if run.len() - at > 2 {
        hex_byte(run[at + 1], run[at + 2])
    } else {
        None
    }
}

impl Run<'_> {
    // That each `#` in these regular bytes of a name gives a byte.
    pub fn check_name(self) -> Result<(), Flaw>
        ensures { result ≡ checked (decode plain self.entry.from self.entry.bytes.now) }
    {
        let run = self.bytes;
        // An escape is passed at once, so the places that are asked are not one apart.
        let mut at = 0;
        while at < run.len() {
            if run[at] != b'#' {
                at += 1;
            } else {
                escaped(run, at).ok_or(Flaw::BadName(self.from + at))?;
                at += 3;
            }
        }
        Ok(())
    }
}

// The first byte that a name stands for, and the place in it behind what gives that byte.
fn spelled_byte(name: &[u8]) -> (u8, usize)
    requires { 0 < length name.now }
    ensures is { spelled name.now ≡ result.0 ∷ spelled (drop result.1 name.now) }
    ensures within { (0 < result.1) × (result.1 ≤ length name.now) }
{
    let b = name[0];
    if b != b'#' {
        return (b, 1);
    }
    match escaped(name, 0) {
        Some(byte) => (byte, 3),
        None => (b, 1),
    }
}

// The bytes that a name stands for.
#[derive(Drop)]
struct SpelledBytes<'a>(&'a [u8]);

impl Iterator for SpelledBytes<'_> {
    type Item = u8;

    ghost next_gives = { YieldsFirst (λ s. spelled s.0.now) };

    ghost remaining = { item_count (λ s. spelled s.0.now) };

    fn next(&mut self) -> Option<u8> {
        let name = self.0;
        if name.len() == 0 {
            return None;
        }
        let (byte, behind) = spelled_byte(name);
        self.0 = &name[behind..];
        Some(byte)
    }
}

// Whether two names stand for the same bytes.
pub fn same_name(a: &[u8], b: &[u8]) -> bool
    ensures { result ≡ same (spelled a.now) (spelled b.now) }
{
    SpelledBytes(a).eq(SpelledBytes(b))
}

// Whether a name stands for these bytes.
pub fn spells(name: &[u8], bytes: &[u8]) -> bool
    ensures { result ≡ same (spelled name.now) bytes.now }
{
    SpelledBytes(name).eq(bytes.iter().copied())
}

// Whether the bytes are the same.
// `==` in a function of its own: its clause in the library speaks of a comparison byte by byte in the library's words. That this is `same` of the
// definitions is shown here once, and the callers have it from this clause.
pub fn same_bytes(a: &[u8], b: &[u8]) -> bool
    ensures { result ≡ same a.now b.now }
{
    a == b
}
