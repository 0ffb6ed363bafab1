// The entries of a trailer.
ghost use Rattle.std.specs.Prelude.{◌≡◌, ℕ, drop};
ghost use Rattle.format.specs.Bytes.{Bytes, ok};
ghost use Rattle.format.specs.Chain.{trailer_entry, is_absent, prev_of, size_of, root_of, told};
ghost use Rattle.format.specs.Objects.{Entries, no_entries, entries, object_by};
ghost use Rattle.format.specs.Strings.{turns};
ghost use Rattle.lexer.specs.Spelled.{spelled};
ghost use Rattle.objects.specs.Shapes.{shape_in};
ghost use Rattle.opening.specs.Trailers.{kind_of, kind_in, told_of};

use crate::told::{Kind, Told};
use objects::object::value_of;
use objects::shape::{Shape, Value};

// What a value is to a trailer; no value counts as a null one.
impl From<Option<Value>> for Kind {
    ghost from_gives = { λ value kind. kind_of kind ≡ kind_in (shape_in value) };

    fn from(value: Option<Value>) -> Kind {
        match value.map(|value| value.shape) {
            None | Some(Shape::Null) => Kind::Absent,
            Some(Shape::Integer(z)) => Kind::Number(z),
            Some(Shape::Reference { number, generation }) => Kind::Reference(
                number,
                u32::from(generation),
            ),
            Some(_) => Kind::Other,
        }
    }
}

// What the entry for a key is, in the trailer whose entries start at `inside`.
// The bytes and the place, no `Lexer`: `value_of` takes any place, past the end too, and so nobody here has to show its bound; `told` likewise.
fn kind_at(src: &[u8], inside: usize, name: &[u8]) -> Kind
    ensures { (es : Entries) (q : ℕ) (ys : Bytes) → entries (object_by 31) turns no_entries inside (drop inside src.now) ≡ ok es q ys → kind_of result ≡ trailer_entry (spelled name.now) es }
{
    Kind::from(value_of(src, inside, name))
}

#[tactic(auto, unfolding(format::specs::Chain::is_absent))]
fn is_absent(kind: Kind) -> bool
    ensures { result ≡ is_absent (kind_of kind) }
{
    kind == Kind::Absent
}

// A direct integer.
#[tactic(auto, unfolding(format::specs::Chain::size_of))]
fn size_of(kind: Kind) -> Option<i64>
    ensures { result ≡ size_of (kind_of kind) }
{
    match kind {
        Kind::Number(z) => Some(z),
        _ => None,
    }
}

// A direct integer, or nothing.
#[tactic(auto, unfolding(format::specs::Chain::prev_of))]
fn prev_of(kind: Kind) -> Option<Option<i64>>
    ensures { result ≡ prev_of (kind_of kind) }
{
    match kind {
        Kind::Absent => Some(None),
        Kind::Number(z) => Some(Some(z)),
        _ => None,
    }
}

// A reference.
#[tactic(auto, unfolding(format::specs::Chain::root_of))]
fn root_of(kind: Kind) -> Option<(u32, u32)>
    ensures { result ≡ root_of (kind_of kind) }
{
    match kind {
        Kind::Reference(number, generation) => Some((number, generation)),
        _ => None,
    }
}

// What the trailer says whose entries start at `inside`; none where an entry is missing, unwanted, or of the wrong kind.
pub fn told(src: &[u8], inside: usize) -> Option<Told>
    ensures { (es : Entries) (q : ℕ) (ys : Bytes) → entries (object_by 31) turns no_entries inside (drop inside src.now) ≡ ok es q ys → told_of result ≡ told es }
{
    let size = size_of(kind_at(src, inside, b"Size"))?;
    let prev = prev_of(kind_at(src, inside, b"Prev"))?;
    let (root, root_generation) = root_of(kind_at(src, inside, b"Root"))?;
    if !is_absent(kind_at(src, inside, b"Encrypt")) {
        return None;
    }
    if !is_absent(kind_at(src, inside, b"XRefStm")) {
        return None;
    }
    Some(Told {
        size,
        prev,
        root,
        root_generation,
    })
}
