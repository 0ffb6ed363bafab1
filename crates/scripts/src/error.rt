// What is wrong in a script, and on which line.
ghost use Rattle.std.specs.Prelude.{◌≡◌, Some};
ghost use Rattle.scripts.specs.Errors.{mistake_words, error_words, read_error_words};
ghost use Rattle.scripts.specs.declared.error.ReadError.TheVariants.{NoMemory, Wrong};

use std::alloc::{AllocError, AllocFailed};
use std::fmt;

#[derive(Clone, Copy, PartialEq, Eq, Debug)]
pub enum Mistake {
    // a line that is neither a change, nor empty, nor a comment
    NoChange,
    // what follows the word is not one to ten digits
    BadNumber,
    // the script has a change of that number already
    NumberAgain,
    // a line of a body starts with one dot, and more than a dot stands on it
    SingleDot,
    // the script ends in a body
    NoEnd,
}

impl Mistake {
    fn words(self) -> &'static str
        ensures { result.now ≡ mistake_words self }
    {
        match self {
            Mistake::NoChange => "a change is `put N` or `remove N`",
            Mistake::BadNumber => "a number is one to ten digits",
            Mistake::NumberAgain => "this number has a change already",
            Mistake::SingleDot =>
                "a line of a body that starts with a dot is written with one dot more",
            Mistake::NoEnd => "the body that starts here has no end, a line that is just a dot",
        }
    }
}

// For each type with `words`, as `Trouble` of the test bench, one more impl: a foreign trait cannot be implemented for all that have words.
impl fmt::Display for Mistake {
    ghost output = { λ m. Some (mistake_words m) };

    fn fmt<W: fmt::Write>(&self, f: &mut fmt::Formatter<W>) -> fmt::Result {
        let words = self.words();
        write!(f, "{words}")
    }
}

// The line, counted from 1, and what is wrong there.
#[derive(Clone, Copy, PartialEq, Eq, Debug)]
pub struct ScriptError {
    pub line: usize,
    pub kind: Mistake,
}

impl fmt::Display for ScriptError {
    ghost output = { λ x. Some (error_words x) };

    fn fmt<W: fmt::Write>(&self, f: &mut fmt::Formatter<W>) -> fmt::Result {
        let line = self.line;
        let kind = self.kind;
        write!(f, "line {line}: {kind}")
    }
}

// Why a script is not read.
#[derive(Clone, Copy, PartialEq, Eq, Debug)]
pub enum ReadError {
    NoMemory,
    Wrong(ScriptError),
}

impl fmt::Display for ReadError {
    ghost output = { λ x. Some (read_error_words x) };

    fn fmt<W: fmt::Write>(&self, f: &mut fmt::Formatter<W>) -> fmt::Result {
        match self {
            ReadError::NoMemory => write!(f, "there is too little memory"),
            ReadError::Wrong(error) => write!(f, "{error}"),
        }
    }
}

// By hand, as clauses name what `?` makes of an error: a derived `From` has no contract.
impl From<ScriptError> for ReadError {
    ghost from_gives = { λ e r. r ≡ Wrong e };

    fn from(e: ScriptError) -> ReadError {
        ReadError::Wrong(e)
    }
}

impl From<AllocError> for ReadError {
    ghost from_gives = { λ _ r. r ≡ NoMemory };

    fn from(_e: AllocError) -> ReadError {
        ReadError::NoMemory
    }
}

impl<T: Drop> From<AllocFailed<T>> for ReadError {
    ghost from_gives = { λ _ r. r ≡ NoMemory };

    fn from(_e: AllocFailed<T>) -> ReadError {
        ReadError::NoMemory
    }
}
