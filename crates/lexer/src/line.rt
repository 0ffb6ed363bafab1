// Ends of line.
ghost use Rattle.std.specs.Prelude.{◌≡◌, ◌<◌, ◌≤◌, length, drop, IfOk};
ghost use Rattle.format.specs.Space.{eol_at};
ghost use Rattle.lexer.specs.Endings.{line_shown};

use crate::reader::Lexer;

// What a part of a line lacks.
#[derive(Clone, Copy, Debug, PartialEq, Eq)]
pub enum Lack {
    // the bytes end in it
    Short,
    // they do not fit
    Misfit,
}

impl Lexer<'_> {
    // The place behind the end of line here: CR LF, LF, or CR with no LF behind it.
    pub fn line_end(self) -> Result<usize, Lack>
        ensures is { line_shown self.entry.src.now result ≡ eol_at self.entry.place (drop self.entry.place self.entry.src.now) }
        ensures within { IfOk result (λ q. (self.entry.place < q) × (q ≤ length self.entry.src.now)) }
    {
        let at = self.place;
        match &self.src[at..] {
            [] => Err(Lack::Short),
            [b'\n', ..] => Ok(at + 1),
            [b'\r', b'\n', ..] => Ok(at + 2),
            [b'\r', ..] => Ok(at + 1),
            _ => Err(Lack::Misfit),
        }
    }
}
