// Literal strings.
ghost use Rattle.std.specs.Prelude.{◌<◌, ◌≤◌, length, MatchResult};
ghost use Rattle.format.specs.Strings.{string_by};
ghost use Rattle.format.specs.Tokens.{stray};
ghost use Rattle.lexer.specs.Endings.{StringRead};
ghost use Rattle.lexer.specs.Flaws.{FlawWithin};
ghost use Rattle.lexer.specs.Heads.{behind};

use crate::flaw::Flaw;
use crate::head::Head;

impl Head<'_> {
    // The literal string whose opening bracket is the first byte: the place behind its closing bracket. Its brackets may nest `depth` deep, its own being the first.
    fn literal_end(self, depth: u8) -> Result<usize, Flaw>
        ensures is { StringRead (λ q. stray) self.entry.src.now (string_by depth self.entry.at (behind self.entry)) result }
        ensures within { MatchResult result (λ q. (self.entry.at < q) × (q ≤ length self.entry.src.now)) (FlawWithin self.entry.src.now) }
    {
        if depth == 0 {
            return Err(Flaw::DeepBracket(self.at));
        }
        let src = self.src;
        // A bracketed part and an escape are passed at once, so the places that are asked are not one apart.
        let mut at = self.at + 1;
        'inside: while at < src.len() {
            let b = src[at];
            if b == b')' {
                return Ok(at + 1);
            }
            if b == b'(' {
                at = Head { src, at }.literal_end(depth - 1)?;
            } else if b == b'\\' {
                // it takes the next byte with it
                at += 2;
            } else {
                at += 1;
            }
        }
        Err(Flaw::CutShort(src.len()))
    }

    // The same where its brackets may nest 32 deep.
    pub fn string_end(self) -> Result<usize, Flaw>
        ensures is { StringRead (λ q. stray) self.entry.src.now (string_by 32 self.entry.at (behind self.entry)) result }
        ensures within { MatchResult result (λ q. (self.entry.at < q) × (q ≤ length self.entry.src.now)) (FlawWithin self.entry.src.now) }
    {
        self.literal_end(32)
    }
}
