// The entries of the previous trailer, copied but for Size and Prev.
ghost use Rattle.std.specs.Prelude.{◌≡◌, ◌+◌, ◌-◌, ◌*◌, ◌≤◌, length};
ghost use Rattle.format.specs.Objects.{Entries};
ghost use Rattle.format.specs.Writing.{copied, is_rewritten};
ghost use Rattle.lexer.specs.Spelled.{spelled};
ghost use Rattle.writer.specs.Drafts.{Adds, Room, count};
ghost use Rattle.writer.specs.Trailers.{Lies, ReadAs, Readable, copy_of};

use crate::draft::Draft;
use lexer::name::spells;
use objects::object::next_entry;
use objects::shape::Entry;

// Whether a key, by its name's bytes behind the `/`, is written anew.
fn is_rewritten(name: &[u8]) -> bool
    ensures { result ≡ is_rewritten (spelled name.now) }
{
    spells(name, b"Size") || spells(name, b"Prev")
}

// An entry, unless it is written anew.
fn copy_entry(draft: &mut Draft, src: &[u8], one: Entry)
    requires lies { Lies src.now one }
    requires room { Room draft.old (2 * (one.value.end - one.key)) }
    ensures { Adds draft.old (copy_of src.now one) draft.new }
{
    if !is_rewritten(&src[one.key + 1..one.behind]) {
        draft.pair(
            &src[one.key..one.behind],
            &src[one.value.start..one.value.end],
        );
    }
}

// The entries from the place `inside` on, behind the mark that opens the trailer's dictionary.
pub(crate) fn copy_entries(draft: &mut Draft, src: &[u8], inside: usize)
    requires readable { Readable src.now inside }
    requires room { Room draft.old (2 * length src.now) }
    ensures adds { (es : Entries) → ReadAs src.now inside es → Adds draft.old (copied es) draft.new }
    ensures grown { count draft.new ≤ count draft.old + 2 * length src.now }
{
    let mut at = inside;
    'entries: while let Some(one) = next_entry(src, at) {
        copy_entry(draft, src, one);
        at = one.value.end;
    }
}
