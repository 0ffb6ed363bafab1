// Numbers.
ghost use Rattle.std.specs.Prelude.{◌≡◌, ◌+◌, ◌-◌, ◌*◌, ◌^◌, ◌<◌, ◌≤◌, true, false, length, pos, neg_ℤ, MatchResult, if◌then◌else◌};
ghost use Rattle.format.specs.Bytes.{Bytes};
ghost use Rattle.format.specs.Numbers.{bounded, unsigned_part, numeral};
ghost use Rattle.format.specs.Tokens.{numeral_kind};
ghost use Rattle.lexer.specs.Numerals.{number_shown, is_absent, is_minus, walk, capped};

use crate::bytes::is_digit;
use crate::flaw::Flaw;
use crate::run::Run;

// What regular bytes that start like a number are.
#[derive(Clone, Copy)]
pub enum Numeral {
    // an integer without a sign
    Unsigned(u32),
    // an integer with one
    Signed(i32),
    // a real
    Fraction,
}

// What stands in front of the digits.
#[derive(Clone, Copy)]
enum Sign {
    Absent,
    Plus,
    Minus,
}

// The size behind one more digit.
fn more_size(size: u32, b: u8) -> u32
    requires { (size ≤ 2147483649) × (48 ≤ b) }
    ensures is { result ≡ capped (size * 10 + (b - 48)) }
    ensures high { result ≤ 2147483649 }
{
    // in `u64`, where nothing saturates: this is done for each digit, and `saturating_mul` and `saturating_add` took half as long again.
    // `as`: what is cast is at most the bound, and `try_from` would answer an error that never comes.
    (u64::from(size) * 10 + u64::from(b - b'0')).min(2147483649) as u32
}

// The integer of a size, behind a minus or not.
fn integer(minus: bool, size: u32) -> Result<i32, Flaw>
    ensures { MatchResult result
        (λ z. (z ≡ (if minus then neg_ℤ (pos size) else pos size)) × (size ≤ (if minus then 2147483648 else 2147483647)))
        (λ e. (e ≡ Flaw.OutOfRange) × ((if minus then 2147483648 else 2147483647) < size)) }
{
    let value = i64::from(size);
    let signed = if minus { -value } else { value };
    i32::try_from(signed).map_err(|_| Flaw::OutOfRange)
}

impl Sign {
    fn is_minus(self) -> bool
        ensures { result ≡ is_minus self }
    {
        matches!(self, Sign::Minus)
    }
}

// The integer of a size, with its sign.
fn with_sign(sign: Sign, size: u32) -> Result<Numeral, Flaw>
    ensures { (w : Bytes) → number_shown w result ≡ numeral_kind w (bounded (is_absent sign) (is_minus sign) size) }
{
    let z = integer(sign.is_minus(), size)?;
    match sign {
        Sign::Absent => Ok(Numeral::Unsigned(size)),
        Sign::Plus | Sign::Minus => Ok(Numeral::Signed(z)),
    }
}

impl Run<'_> {
    // The size of the integer whose digits these are, at most 2147483649 for one past either bound; none for a real.
    fn size(self) -> Result<Option<u32>, Flaw>
        ensures { result ≡ walk false false 0 self.entry.from self.entry.bytes.now }
    {
        let mut period = false;
        let mut digit = false;
        let mut size = 0;
        for (at, b) in self.bytes.iter().enumerate() {
            if is_digit(*b) {
                digit = true;
                size = more_size(size, *b);
            } else if *b == b'.' && !period {
                period = true;
            } else {
                return Err(Flaw::BadNumber(self.from + at));
            }
        }
        if !digit {
            Err(Flaw::BadNumber(self.from + self.bytes.len()))
        } else if period {
            Ok(None)
        } else {
            Ok(Some(size))
        }
    }

    // The number that these bytes are behind a sign, or without one.
    fn part(self, sign: Sign) -> Result<Numeral, Flaw>
        ensures { (w : Bytes) → number_shown w result ≡ numeral_kind w (unsigned_part (is_absent sign) (is_minus sign) self.entry.from self.entry.bytes.now) }
    {
        let size = self.size()?;
        match size {
            Some(n) => with_sign(sign, n),
            None => Ok(Numeral::Fraction),
        }
    }

    // The number that these regular bytes are, which start like one.
    pub fn numeral(self) -> Result<Numeral, Flaw>
        ensures { number_shown self.entry.bytes.now result ≡ numeral_kind self.entry.bytes.now (numeral self.entry.from self.entry.bytes.now) }
    {
        match self.bytes {
            [] => Err(Flaw::BadNumber(self.from)),
            [b'-', ..] => self.behind().part(Sign::Minus),
            [b'+', ..] => self.behind().part(Sign::Plus),
            _ => self.part(Sign::Absent),
        }
    }
}
