// Why the bench cannot do a line.
ghost use Rattle.std.specs.Prelude.{◌≡◌};
ghost use Rattle.replay.specs.declared.trouble.Trouble.TheVariants.{NoMemory};

use std::alloc::{AllocError, AllocFailed};
use std::fmt;

#[derive(Clone, Copy, PartialEq, Eq, Debug)]
pub enum Trouble {
    NoText,
    EmptyLine,
    NoCommand,
    WordMissing,
    WordSurplus,
    BadNumber,
    BadBytes,
    BadPlace,
    NoStore,
    OverlaysFull,
    NoMemory,
}

impl Trouble {
    fn words(self) -> &'static str {
        match self {
            Trouble::NoText => "the line is no text",
            Trouble::EmptyLine => "the line is empty",
            Trouble::NoCommand => "there is no such command",
            Trouble::WordMissing => "a word is missing",
            Trouble::WordSurplus => "there is a word too many",
            Trouble::BadNumber => "a number has one to 19 decimal digits",
            Trouble::BadPlace => "places count from at most 9999999",
            Trouble::BadBytes => "bytes are pairs of lower-case hex digits",
            Trouble::NoStore => "there is no store",
            Trouble::OverlaysFull => "there are two overlays already",
            Trouble::NoMemory => "there is too little memory",
        }
    }
}

// By hand, as clauses name what `?` makes of an error: a derived `From` has no contract.
impl From<AllocError> for Trouble {
    ghost from_gives = { λ _ t. t ≡ NoMemory };

    fn from(_e: AllocError) -> Trouble {
        Trouble::NoMemory
    }
}

impl<T: Drop> From<AllocFailed<T>> for Trouble {
    ghost from_gives = { λ _ t. t ≡ NoMemory };

    fn from(_e: AllocFailed<T>) -> Trouble {
        Trouble::NoMemory
    }
}

// For each type with `words`, as `Mistake` of the scripts, one more impl: a foreign trait cannot be implemented for all that have words.
impl fmt::Display for Trouble {
    fn fmt<W: fmt::Write>(&self, f: &mut fmt::Formatter<W>) -> fmt::Result {
        let words = self.words();
        write!(f, "{words}")
    }
}
