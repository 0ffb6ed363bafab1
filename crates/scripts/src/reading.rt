// Reading a whole script into memory of its own.
ghost use Rattle.std.specs.Prelude.{◌≡◌, IfOk};
ghost use Rattle.scripts.specs.Readers.{spelled_change};
ghost use Rattle.scripts.specs.Reads.{Added, ReadAs};
ghost use Rattle.scripts.specs.Rows.{change_of, rows_of};

use crate::change::Change;
use crate::dots::add_body;
use crate::error::{Mistake, ReadError, ScriptError};
use crate::found::{Found, Spelled};
use crate::reader::Reader;
use crate::script::Script;
use std::alloc::{AllocError, Global};
use std::collections::BTreeMap;

// The change in memory of its own.
fn owned(heap: Global, spelled: Spelled<'_>) -> Result<Change<Vec<u8>>, AllocError>
    ensures { IfOk result (λ c. change_of c ≡ spelled_change spelled.entry) }
{
    match spelled {
        Change::Removed => Ok(Change::Removed),
        Change::Body(text) => {
            let mut bytes = Vec::with_capacity(heap, text.len())?;
            add_body(&mut bytes, text)?;
            Ok(Change::Body(bytes))
        }
    }
}

// Adds a change where its number has none yet.
fn add(
    heap: Global,
    changes: &mut BTreeMap<u64, Change<Vec<u8>>>,
    found: Found<'_>,
) -> Result<(), ReadError>
    ensures { Added (rows_of changes.old.entries) found.entry result (rows_of changes.new.entries) }
{
    if changes.contains_key(&found.number) {
        return Err(ReadError::Wrong(ScriptError {
            line: found.line,
            kind: Mistake::NumberAgain,
        }));
    }
    let change = owned(heap, found.change)?;
    changes.insert(found.number, change)?;
    Ok(())
}

// The update that a script stands for.
pub fn read(heap: Global, src: &[u8]) -> Result<Script, ReadError>
    ensures { ReadAs src.now result }
{
    let mut reader = Reader::new(src);
    let mut changes = BTreeMap::new(heap);
    while let Some(found) = reader.next()? {
        add(heap, &mut changes, found)?;
    }
    Ok(Script { changes })
}
