// Objects and the entries of dictionaries, for those who read files.
ghost use Rattle.std.specs.Prelude.{◌≡◌, false, drop, None};
ghost use Rattle.format.specs.Strings.{turns};
ghost use Rattle.format.specs.Objects.{object, object_by, entries, no_entries};
ghost use Rattle.lexer.specs.Spelled.{spelled};
ghost use Rattle.objects.specs.Shapes.{shaped};
ghost use Rattle.objects.specs.Extents.{read_by, find};
ghost use Rattle.objects.specs.Nexts.{entry_in};
ghost use Rattle.objects.specs.Steps.{seen, placed, bare};

use crate::ahead::{Ahead, next_in};
use crate::place::lexer_at;
use crate::read::{find_value, read_dictionary, read_object, read_value};
use crate::reading::Reading;
use crate::shape::{Entry, Extent, Value};
use faults::fault::Fault;

// The object at `from`: what it is, and the place behind it.
pub fn object_at(src: &[u8], from: usize) -> Result<Extent, Fault>
    ensures { seen src.now result ≡ shaped (object from (drop from src.now)) }
{
    read_object(lexer_at(src, from)?, Reading::checked(32))
}

// The entries of a dictionary from `from` on, behind the mark that opens it: the place behind the mark that closes it.
pub fn entries_end(src: &[u8], from: usize) -> Result<usize, Fault>
    ensures { placed src.now result ≡ bare (entries (object_by 31) turns no_entries from (drop from src.now)) }
{
    read_dictionary(lexer_at(src, from)?, Reading::checked(31))
}

// The value of the key that a name's bytes behind the `/` spell, among the entries from `from` on.
pub fn value_of(src: &[u8], from: usize, name: &[u8]) -> Option<Value>
    ensures { result ≡ find (read_by false 31) turns (spelled name.now) None from (drop from src.now) }
{
    find_value(lexer_at(src, from).ok()?, None, name, 31)
}

// The entry that stands next in a dictionary that was accepted; none where the dictionary closes.
// From `value.end` on, the next one: they are the entries of the dictionary's tree (`entries_are_listed`).
pub fn next_entry(src: &[u8], from: usize) -> Option<Entry>
    ensures { result ≡ entry_in src.now from }
{
    let at = lexer_at(src, from).ok()?;
    match next_in(at).ok()? {
        Ahead::Key {
            start: key,
            behind,
            ..
        } => {
            let value = read_value(at.to(behind), Reading::unchecked(31)).ok()?;
            Some(Entry { key, behind, value })
        }
        Ahead::Closes { .. } => None,
    }
}
