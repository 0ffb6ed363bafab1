// What is wrong with the bytes where a token should be.
ghost use Rattle.std.specs.Prelude.{◌≡◌};
ghost use Rattle.format.specs.Tokens.{flaw_fault};
ghost use Rattle.lexer.specs.Flaws.{flaw_shown};

use faults::fault::Fault;
use faults::layer::Layer;
use faults::reason::Reason;

#[derive(Clone, Copy)]
pub enum Flaw {
    // a name, at the `#` that is wrong
    BadName(usize),
    // a number, at the first byte that cannot continue one, else its end
    BadNumber(usize),
    // a hex string, at the first byte that is no digit, white space or `>`
    BadHex(usize),
    // a mark with which no token starts
    Stray,
    // the bytes end inside the token
    CutShort(usize),
    // a bracket of a literal string nests too deep
    DeepBracket(usize),
    // an integer past its bound
    OutOfRange,
}

// The fault for a flaw of the token that starts at `from`.
pub fn flaw_fault(from: usize, flaw: Flaw) -> Fault
    ensures { result ≡ flaw_fault from (flaw_shown flaw) }
{
    match flaw {
        Flaw::BadName(_) | Flaw::BadNumber(_) | Flaw::BadHex(_) | Flaw::Stray => Fault::met(
            Reason::BadToken,
            Layer::Token,
            from,
        ),
        Flaw::CutShort(end) => Fault::met(Reason::BytesEnd, Layer::Token, end),
        Flaw::DeepBracket(place) => Fault::met(Reason::TooDeep, Layer::Token, place),
        Flaw::OutOfRange => Fault::met(Reason::IntegerRange, Layer::Token, from),
    }
}
