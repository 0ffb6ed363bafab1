// Bytes as text, two lower-case hex digits each.
ghost use Rattle.std.specs.Prelude.{◌≡◌, ◌/◌, ◌%◌, ◌<◌, ◌⊎◌, [], ◌∷◌, ◌++◌, MatchOption, MatchResult, OnOk};
ghost use Rattle.replay.specs.Hex.{digit_of, hex_of, HexDigit, HexText};
ghost use Rattle.replay.specs.declared.trouble.Trouble.TheVariants.{BadBytes, NoMemory};

use crate::trouble::Trouble;
use numerals::hex_digit;
use std::alloc::{AllocError, Global};

// The hex digit that stands for ten.
const TEN: u8 = b'a';

// The number that a digit writes. Capitals are refused here, which the lexer's `hex_digit` takes.
fn nibble(c: u8) -> Option<u8>
    ensures { MatchOption result (HexDigit c → ⊥) (λ n. (n < 16) × (digit_of n ≡ c) × HexDigit c) }
{
    match c {
        b'0'..=b'9' => Some(c - b'0'),
        b'a'..=b'f' => Some(c - b'a' + 10),
        _ => None,
    }
}

// The byte that two digits write.
fn byte(high: u8, low: u8) -> Option<u8>
    ensures { MatchOption result (HexDigit high → HexDigit low → ⊥) (λ b. (digit_of (b / 16) ≡ high) × (digit_of (b % 16) ≡ low) × HexDigit high × HexDigit low) }
{
    let h = nibble(high)?;
    let l = nibble(low)?;
    Some(16 * h + l)
}

// Adds the digits of the bytes to the text.
pub fn encode(bytes: &[u8], text: &mut Vec<u8>) -> Result<(), AllocError>
    ensures { OnOk result (text.new.items ≡ text.old.items ++ hex_of bytes.now) }
{
    for b in bytes {
        let high = hex_digit(*b / 16, TEN);
        let low = hex_digit(*b % 16, TEN);
        text.extend_from_slice(&[high, low])?;
    }
    Ok(())
}

// The bytes that a text of digits writes. Any other text is refused.
pub fn decode(heap: Global, text: &[u8]) -> Result<Vec<u8>, Trouble>
    ensures { MatchResult result (λ v. HexText text.now × (hex_of v.items ≡ text.now)) (λ e. (e ≡ NoMemory) ⊎ ((e ≡ BadBytes) × (HexText text.now → ⊥))) }
{
    let (pairs, rest) = text.as_chunks::<2>();
    if !rest.is_empty() {
        return Err(Trouble::BadBytes);
    }
    let mut bytes = Vec::with_capacity(heap, pairs.len())?;
    for [high, low] in pairs {
        let b = byte(*high, *low).ok_or(Trouble::BadBytes)?;
        bytes.push(b)?;
    }
    Ok(bytes)
}
