// White space, comments, and runs of regular bytes.
ghost use Rattle.std.specs.Prelude.{◌≡◌, ◌≤◌, false, length, drop};
ghost use Rattle.format.specs.Bytes.{is_regular, span, up_to};
ghost use Rattle.format.specs.Space.{skip};

use crate::bytes::{is_eol, is_regular, is_white};
use crate::reader::Lexer;

impl Lexer<'_> {
    // The first place from here on that is neither white space nor in a comment.
    pub fn skip_space(self) -> usize
        ensures is { skip false self.entry.place (drop self.entry.place self.entry.src.now) ≡ (result, drop result self.entry.src.now) }
        ensures low { self.entry.place ≤ result }
        ensures high { result ≤ length self.entry.src.now }
    {
        let src = self.src;
        // The place is counted here: over a range the loop took twice as long on comments, and a file's bytes all come by it.
        let mut at = self.place;
        let mut comment = false;
        while at < src.len() {
            let b = src[at];
            if comment {
                comment = !is_eol(b);
            } else if !is_white(b) {
                if b != b'%' {
                    break;
                }
                comment = true;
            }
            at += 1;
        }
        at
    }

    // The place behind the regular bytes from here on.
    pub fn run_end(self) -> usize
        ensures is { span is_regular self.entry.place (drop self.entry.place self.entry.src.now) ≡ (up_to self.entry.place (drop self.entry.place self.entry.src.now) result, result, drop result self.entry.src.now) }
        ensures low { self.entry.place ≤ result }
        ensures high { result ≤ length self.entry.src.now }
    {
        let src = self.src;
        // The place is counted here: by `position` a long run took a third longer.
        let mut at = self.place;
        while at < src.len() && is_regular(src[at]) {
            at += 1;
        }
        at
    }
}
