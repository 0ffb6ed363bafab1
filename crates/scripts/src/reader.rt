// Reading a script change by change. No memory is taken.
ghost use Rattle.std.specs.Prelude.{◌≡◌};
ghost use Rattle.scripts.specs.Readers.{Gave, SmallNumber};
ghost use Rattle.scripts.specs.Scripts.{between, said_by};
ghost use Rattle.scripts.specs.Walks.{said_at};

use crate::change::Change;
use crate::cursor::Cursor;
use crate::error::ScriptError;
use crate::found::Found;
use crate::line::Head;

// From where the next change is read.
#[derive(Drop)]
pub struct Reader<'a> {
    at: Cursor<'a>,
}

impl<'a> Reader<'a> {
    pub fn new(src: &'a [u8]) -> Reader<'a>
        ensures { said_at between result.at ≡ said_by src.now }
    {
        Reader {
            at: Cursor::new(src),
        }
    }

    // The next change, if there is one.
    pub fn next(&mut self) -> Result<Option<Found<'a>>, ScriptError>
        ensures gave { Gave (said_at between self.old.at) result (said_at between self.new.at) }
        ensures small { SmallNumber result }
    {
        let mut ahead = self.at;
        let Some(head) = ahead.head()? else {
            return Ok(None);
        };
        let line = ahead.lines;
        match head {
            Head::Remove(number) => {
                self.at = ahead;
                Ok(Some(Found {
                    line,
                    number,
                    change: Change::Removed,
                }))
            }
            Head::Put(number) => {
                let text = ahead.body()?;
                self.at = ahead;
                Ok(Some(Found {
                    line,
                    number,
                    change: Change::Body(text),
                }))
            }
        }
    }
}
