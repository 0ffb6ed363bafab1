// The bytes around a place, and bytes as a person reads them.
ghost use Rattle.std.specs.Prelude.{◌≡◌, ◌++◌, OnOk};
ghost use Rattle.std.specs.List.{flat_map};
ghost use Rattle.reports.specs.Excerpts.{before_place, behind_place, is_plain, spelled};

use numerals::hex_digit;
use std::alloc::{AllocError, Global};

// How many bytes are shown on either side of a place.
const REACH: usize = 24;

// The hex digit that stands for ten.
const TEN: u8 = b'A';

// The bytes before a place, and those from it on.
#[derive(Clone, Copy)]
pub struct Excerpt<'a> {
    pub before: &'a [u8],
    pub behind: &'a [u8],
}

// The bytes around a place; one past the end is taken for the end.
pub fn around<'a>(bytes: &'a [u8], place: usize) -> Excerpt<'a>
    ensures before { result.before.now ≡ before_place bytes.now place }
    ensures behind { result.behind.now ≡ behind_place bytes.now place }
{
    let (before, behind) = bytes.split_at(place.min(bytes.len()));
    Excerpt {
        before: &before[before.len().saturating_sub(REACH)..],
        behind: &behind[..behind.len().min(REACH)],
    }
}

// Printable characters but the backslash, which begins what stands for another byte.
fn is_plain(byte: u8) -> bool
    ensures { result ≡ is_plain byte }
{
    matches!(byte, b' '..=b'~') && byte != b'\\'
}

// Adds the bytes to a text: printable ones as they are, others as `\x` and two hex digits.
pub fn spell(text: &mut Vec<u8>, bytes: &[u8]) -> Result<(), AllocError>
    ensures { OnOk result (text.new.items ≡ text.old.items ++ flat_map spelled bytes.now) }
{
    for b in bytes {
        spell_one(text, *b)?;
    }
    Ok(())
}

fn spell_one(text: &mut Vec<u8>, byte: u8) -> Result<(), AllocError>
    ensures { OnOk result (text.new.items ≡ text.old.items ++ spelled byte) }
{
    if is_plain(byte) {
        text.push(byte)?;
        return Ok(());
    }
    let high = hex_digit(byte / 16, TEN);
    let low = hex_digit(byte % 16, TEN);
    text.extend_from_slice(&[b'\\', b'x', high, low])
}
