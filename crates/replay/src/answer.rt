// What a command is answered, as one line.
ghost use Rattle.std.specs.Prelude.{◌≡◌, Some};
ghost use Rattle.replay.specs.Answers.{refusal_words};
ghost use Rattle.replay.specs.Calls.{Plain};
ghost use Rattle.replay.specs.declared.answer.Setback.TheVariants as setback;
ghost use Rattle.replay.specs.declared.trouble.Trouble.TheVariants.{NoMemory};

use crate::sort::Sort;
use crate::trouble::Trouble;
use faults::fault::Fault;
use std::alloc::{AllocError, AllocFailed, Global};
use std::io::Write;
use std::{fmt, io};

// The values of a command that was done, or why it was not.
pub type Answer = Result<Vec<Value>, Setback>;

// The answer of what has no values to tell.
pub fn plain(heap: Global, res: Result<(), Setback>) -> Answer
    ensures { Plain result res }
{
    res.map(|_| Vec::new(heap))
}

#[derive(Drop)]
pub enum Value {
    Number(usize),
    Nothing,
    // The digits of bytes.
    Hex(Vec<u8>),
    // A token, its first place and the place behind it.
    Token { sort: Sort, from: usize, to: usize },
}

#[derive(Clone, Copy)]
pub enum Setback {
    // The library refused the call.
    Fault(Fault),
    // The bench could not make it.
    Trouble(Trouble),
}

// By hand, as clauses name what `?` makes of an error: a derived `From` has no contract.
impl From<Fault> for Setback {
    ghost from_gives = { λ f s. s ≡ setback.Fault f };

    fn from(fault: Fault) -> Setback {
        Setback::Fault(fault)
    }
}

impl From<Trouble> for Setback {
    ghost from_gives = { λ t s. s ≡ setback.Trouble t };

    fn from(trouble: Trouble) -> Setback {
        Setback::Trouble(trouble)
    }
}

impl From<AllocError> for Setback {
    ghost from_gives = { λ _ s. s ≡ setback.Trouble NoMemory };

    fn from(_e: AllocError) -> Setback {
        Setback::Trouble(Trouble::NoMemory)
    }
}

impl<T: Drop> From<AllocFailed<T>> for Setback {
    ghost from_gives = { λ _ s. s ≡ setback.Trouble NoMemory };

    fn from(_e: AllocFailed<T>) -> Setback {
        Setback::Trouble(Trouble::NoMemory)
    }
}

// A fault in the form that other tools read.
#[derive(Clone, Copy)]
struct Refusal(Fault);

impl fmt::Display for Refusal {
    ghost output = { λ x. Some (refusal_words x.0) };

    fn fmt<W: fmt::Write>(&self, f: &mut fmt::Formatter<W>) -> fmt::Result {
        let number = self.0.reason.number();
        let layer = self.0.layer.number();
        let place = self.0.place;
        let object = self.0.object;
        write!(
            f,
            "fault {number} layer {layer} place {place} object {object}"
        )
    }
}

// The digits are bytes, as `hex::encode` adds them and its contract says: a `String` would be plainer here and longer there.
fn write_value<W: Write>(value: &Value, out: &mut W) -> io::Result<()> {
    match value {
        Value::Number(n) => write!(out, " {n}"),
        Value::Nothing => out.write_all(b" none"),
        Value::Hex(digits) => {
            out.write_all(b" ")?;
            out.write_all(digits.as_slice())
        }
        Value::Token { sort, from, to } => write!(out, " {sort}:{from}:{to}"),
    }
}

fn write_values<W: Write>(values: &Vec<Value>, out: &mut W) -> io::Result<()> {
    out.write_all(b"ok")?;
    for value in values {
        write_value(value, out)?;
    }
    out.write_all(b"\n")
}

pub fn write_answer<W: Write>(answer: &Answer, out: &mut W) -> io::Result<()> {
    match answer {
        Ok(values) => write_values(values, out),
        Err(Setback::Fault(fault)) => {
            let refusal = Refusal(*fault);
            writeln!(out, "{refusal}")
        }
        Err(Setback::Trouble(trouble)) => writeln!(out, "error {trouble}"),
    }
}
