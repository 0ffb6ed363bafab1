// Numbers in decimal, digit by digit: `write!` may fail for want of memory, and an append to a draft never does.
ghost use Rattle.std.specs.Prelude.{◌≡◌, ◌+◌, ◌%◌, [], ◌++◌, length};
ghost use Rattle.format.specs.Writing.{decimal, padded};
ghost use Rattle.writer.specs.Drafts.{Adds, Room};

use super::Draft;
use crate::ten_digits::TenDigits;

// The last digit of a number, as a byte. Here and in `decimal`, `as` is proved to lose nothing, and `try_from` would answer an error that never comes.
fn last_digit(n: u64) -> u8
    ensures { result ≡ 48 + n % 10 }
{
    b'0' + (n % 10) as u8
}

impl Draft {
    // A number in decimal.
    pub fn decimal(&mut self, n: TenDigits)
        requires { Room self.old (length (decimal n.value)) }
        ensures { Adds self.old (decimal n.value) self.new }
    {
        if n.value < 10 {
            self.byte(b'0' + n.value as u8);
        } else {
            self.decimal(n.tens());
            self.byte(last_digit(n.value));
        }
    }

    // A number in decimal, between bytes.
    #[tactic(auto, using(crate::proofs::Joined::adds_then))]
    pub fn number(&mut self, before: &[u8], n: TenDigits, after: &[u8])
        requires { Room self.old (length before.now + length (decimal n.value) + length after.now) }
        ensures { Adds self.old (before.now ++ (decimal n.value ++ after.now)) self.new }
    {
        self.text(before);
        self.decimal(n);
        self.text(after);
    }

    // The last `k` digits of a number, with zeros in front.
    #[tactic(auto, using(sections::proofs::Digits::padded_length))]
    pub fn padded(&mut self, k: usize, n: u64)
        requires { Room self.old k }
        ensures { Adds self.old (padded k n []) self.new }
    {
        if k > 0 {
            self.padded(k - 1, n / 10);
            self.byte(last_digit(n));
        }
    }
}
