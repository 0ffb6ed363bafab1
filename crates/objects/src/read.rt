// Objects, arrays and dictionaries.
ghost use Rattle.std.specs.Prelude.{◌≡◌, ◌<◌, ◌≤◌, false, length, IfOk};
ghost use Rattle.format.specs.Strings.{turns};
ghost use Rattle.format.specs.Objects.{items, no_entries};
ghost use Rattle.objects.specs.Shapes.{shaped};
ghost use Rattle.lexer.specs.Spelled.{spelled};
ghost use Rattle.objects.specs.Extents.{read_by, entries_by, find};
ghost use Rattle.objects.specs.Steps.{seen, placed, bare, rest_of, Valued};

use crate::ahead::{Ahead, closing, is_reached, next_in};
use crate::reading::Reading;
use crate::shape::{Extent, Shape, Value};
use crate::start::{Start, start_of};
use faults::fault::Fault;
use faults::layer::Layer;
use faults::reason::Reason;
use lexer::name::same_name;
use lexer::reader::Lexer;

// The object that stands next.
#[cycle(nested)]
pub fn read_object(at: Lexer<'_>, reading: Reading) -> Result<Extent, Fault>
    ensures is { seen at.entry.src.now result ≡ shaped (read_by reading.check reading.depth at.entry.place (rest_of at.entry)) }
    ensures within { IfOk result (λ e. (at.entry.place < e.end) × (e.end ≤ length at.entry.src.now)) }
{
    let (shape, end) = match start_of(at)? {
        Start::Whole(extent) => return Ok(extent),
        Start::Array { mark, inside } => {
            let inner = reading.deeper(mark)?;
            let end = read_array(at.to(inside), inner)?;
            (Shape::Array, end)
        }
        Start::Dictionary { mark, inside } => {
            let inner = reading.deeper(mark)?;
            let end = read_dictionary(at.to(inside), inner)?;
            (Shape::Dictionary, end)
        }
    };
    Ok(Extent { shape, end })
}

// The value behind a key, from behind white space on.
#[cycle(nested)]
pub fn read_value(behind: Lexer<'_>, reading: Reading) -> Result<Value, Fault>
    ensures { Valued reading.check reading.depth behind.entry.src.now behind.entry.place result }
{
    let start = behind.skip_space();
    let Extent { shape, end } = read_object(behind.to(start), reading)?;
    Ok(Value { start, end, shape })
}

// The elements of an array from the first on: the place behind the mark that closes it.
#[cycle(nested)]
pub fn read_array(first: Lexer<'_>, reading: Reading) -> Result<usize, Fault>
    ensures is { placed first.entry.src.now result ≡ bare (items (read_by reading.check reading.depth) turns first.entry.place (rest_of first.entry)) }
    ensures within { IfOk result (λ q. (first.entry.place < q) × (q ≤ length first.entry.src.now)) }
{
    let mut at = first;
    'elements: loop {
        if let Some(end) = closing(at) {
            return Ok(end);
        }
        let element = read_object(at, reading)?;
        at = at.to(element.end);
    }
}

// The entries of a dictionary from the first on: the place behind the mark that closes it.
#[cycle(nested)]
pub fn read_dictionary(first: Lexer<'_>, reading: Reading) -> Result<usize, Fault>
    ensures is { placed first.entry.src.now result ≡ bare (entries_by reading.check (read_by reading.check reading.depth) turns no_entries first.entry.place (rest_of first.entry)) }
    ensures within { IfOk result (λ q. (first.entry.place < q) × (q ≤ length first.entry.src.now)) }
{
    let mut at = first;
    'entries: loop {
        match next_in(at)? {
            Ahead::Closes { behind } => return Ok(behind),
            Ahead::Key {
                name,
                start,
                behind,
            } => {
                if reading.check
                    && find_value(first, Some(at.place), name, reading.depth).is_some()
                {
                    return Err(Fault::met(Reason::KeyAgain, Layer::Object, start));
                }
                let value = read_value(at.to(behind), reading)?;
                at = at.to(value.end);
            }
        }
    }
}

// The value of the key that the name spells, among the entries from the first on, up to the place `stop` or to the end.
#[cycle(nested)]
pub fn find_value(first: Lexer<'_>, stop: Option<usize>, name: &[u8], depth: u8) -> Option<Value>
    ensures { result ≡ find (read_by false depth) turns (spelled name.now) stop first.entry.place (rest_of first.entry) }
{
    let unchecked = Reading::unchecked(depth);
    let mut at = first;
    'walk: loop {
        if is_reached(stop, at.place) {
            return None;
        }
        let Ahead::Key {
            name: key,
            behind,
            ..
        } = next_in(at).ok()?
        else {
            return None;
        };
        let value = read_value(at.to(behind), unchecked).ok()?;
        if same_name(name, key) {
            return Some(value);
        }
        at = at.to(value.end);
    }
}
