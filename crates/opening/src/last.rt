// The offset that a file's own tail gives, read backwards from the end of the file. Each reader is given the bytes that the part ends, and answers
// those before it.
ghost use Rattle.std.specs.Prelude.{◌≡◌, ℕ, ◌-◌, ◌≤◌, reverse, length, drop};
ghost use Rattle.std.specs.Option.{option_map};
ghost use Rattle.format.specs.Bytes.{Bytes, is_digit, span};
ghost use Rattle.format.specs.Frames.{behind};
ghost use Rattle.format.specs.Sections.{back_eol, back_digits, last_offset};

use crate::lines::MOST_DIGITS;
use crate::numbers::{last_digits, number};

// An end of line.
fn back_eol(bytes: &[u8]) -> Option<&[u8]>
    ensures { option_map (λ front. reverse front.now) result ≡ back_eol (reverse bytes.now) }
{
    if let Some(front) = bytes.strip_suffix(b"\r\n") {
        return Some(front);
    }
    if let Some(front) = bytes.strip_suffix(b"\n") {
        return Some(front);
    }
    bytes.strip_suffix(b"\r")
}

// Just these bytes.
fn back_exact<'a>(bytes: &'a [u8], word: &[u8]) -> Option<&'a [u8]>
    ensures { option_map (λ front. reverse front.now) result ≡ behind (reverse word.now) (reverse bytes.now) }
{
    bytes.strip_suffix(word)
}

// The number that one to ten digits spell.
fn back_digits(bytes: &[u8]) -> Option<(u64, &[u8])>
    ensures { option_map (λ x. (x.0, reverse x.1.now)) result ≡ back_digits (span is_digit 0 (reverse bytes.now)) }
{
    let found = last_digits(MOST_DIGITS + 1, bytes);
    if found == 0 || found > MOST_DIGITS {
        return None;
    }
    let start = bytes.len() - found;
    Some((number(&bytes[start..]), &bytes[..start]))
}

// The offset that the tail at the end of these bytes gives, and so of any file whose last bytes they are, where they are 31 or more or the whole file.
pub fn last_offset(src: &[u8]) -> Option<u64>
    ensures is { result ≡ last_offset src.now }
    ensures ends { (file : Bytes) (n : ℕ) → 31 ≤ n → src.now ≡ drop (length file - n) file → result ≡ last_offset file }
{
    let mark_end = back_eol(src)?;
    let mark = back_exact(mark_end, b"%%EOF")?;
    let digits_end = back_eol(mark)?;
    let (offset, digits_start) = back_digits(digits_end)?;
    let word_end = back_eol(digits_start)?;
    let _start = back_exact(word_end, b"startxref")?;
    Some(offset)
}
