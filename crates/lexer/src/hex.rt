// Hexadecimal strings.
ghost use Rattle.std.specs.Prelude.{◌≡◌, ◌+◌, ◌<◌, ◌≤◌, ◌||◌, not, length, drop, position, MatchResult};
ghost use Rattle.format.specs.Bytes.{is_white};
ghost use Rattle.format.specs.Strings.{is_hex, hex_string};
ghost use Rattle.format.specs.Tokens.{bad_hex};
ghost use Rattle.lexer.specs.Endings.{StringRead};
ghost use Rattle.lexer.specs.Flaws.{FlawWithin};

use crate::bytes::{is_hex, is_white};
use crate::flaw::Flaw;
use crate::head::Head;

// The place of the first byte that cannot stand in a hex string.
fn first_outside(bytes: &[u8]) -> Option<usize>
    ensures { result ≡ position (λ x. not (is_hex x || is_white x)) bytes.now }
{
    bytes.iter().position(|b| !(is_hex(*b) || is_white(*b)))
}

impl Head<'_> {
    // The hex string whose opening mark is the first byte: the place behind its closing mark.
    pub fn hex_end(self) -> Result<usize, Flaw>
        ensures is { StringRead bad_hex self.entry.src.now (hex_string (self.entry.at + 1) (drop (self.entry.at + 1) self.entry.src.now)) result }
        ensures within { MatchResult result (λ q. (self.entry.at + 1 < q) × (q ≤ length self.entry.src.now)) (FlawWithin self.entry.src.now) }
    {
        let src = self.src;
        let from = self.at + 1;
        let rest = &src[from..];
        let at = from + first_outside(rest).unwrap_or(rest.len());
        if at == src.len() {
            return Err(Flaw::CutShort(src.len()));
        }
        if src[at] != b'>' {
            return Err(Flaw::BadHex(at));
        }
        Ok(at + 1)
    }
}
