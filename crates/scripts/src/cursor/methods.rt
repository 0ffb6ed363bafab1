// Going through a script line by line.
ghost use Rattle.std.specs.Prelude.{◌≡◌};
ghost use Rattle.scripts.specs.Scripts.{between, said_by};
ghost use Rattle.scripts.specs.Walks.{BodyRead, HeadRead, NextLine, said_at};

use super::Cursor;
use crate::error::{Mistake, ScriptError};
use crate::head::{body_line, head, line_length};
use crate::line::{BodyLine, Head};

impl<'a> Cursor<'a> {
    // The start of a script.
    pub fn new(src: &'a [u8]) -> Cursor<'a>
        ensures { said_at between result ≡ said_by src.now }
    {
        Cursor {
            src,
            place: 0,
            lines: 0,
        }
    }

    // The next line, without its LF, which the last may lack.
    fn line(&mut self) -> Option<&'a [u8]>
        ensures { NextLine self.old result self.new }
    {
        if self.place == self.src.len() {
            return None;
        }
        let rest = &self.src[self.place..];
        let length = line_length(rest);
        self.place = (self.place + length + 1).min(self.src.len());
        self.lines += 1;
        Some(&rest[..length])
    }

    // The next line that says something.
    pub fn head(&mut self) -> Result<Option<Head>, ScriptError>
        ensures { HeadRead self.old result self.new }
    {
        while let Some(line) = self.line() {
            let at = self.lines;
            let said = head(line).map_err(|kind| ScriptError { line: at, kind })?;
            if let Some(head) = said {
                return Ok(Some(head));
            }
        }
        Ok(None)
    }

    // The text of the body that the line before put.
    pub fn body(&mut self) -> Result<&'a [u8], ScriptError>
        ensures { BodyRead self.old result self.new }
    {
        let start = *self;
        let mut end = start.place;
        while let Some(line) = self.line() {
            let at = self.lines;
            match body_line(line).map_err(|kind| ScriptError { line: at, kind })? {
                BodyLine::Text => end = self.place,
                BodyLine::End => {
                    let length = (end - start.place).saturating_sub(1);
                    return Ok(&start.src[start.place..start.place + length]);
                }
            }
        }
        Err(ScriptError {
            line: start.lines,
            kind: Mistake::NoEnd,
        })
    }
}
