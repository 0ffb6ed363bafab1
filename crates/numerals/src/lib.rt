// Numbers as a command writes them, in decimal, and as bytes are shown, in hex.
#![tactic(auto)]

ghost use Rattle.std.specs.Prelude.{◌≡◌, ◌<◌, ◌≤◌, MatchOption};
ghost use Rattle.numerals.specs.Numbers.{Decimal, hex_digit, NumberIn};

// The longest numeral that always fits.
const MOST_DIGITS: usize = 19;

// The number that a numeral writes.
pub fn decimal(text: &str) -> Option<usize>
    ensures { MatchOption result (Decimal text.now → ⊥) (λ n. NumberIn n text.now) }
{
    // `parse` takes a sign.
    if text.len() > MOST_DIGITS || text.starts_with('+') {
        return None;
    }
    text.parse().ok()
}

// The hex digit of a number below 16, where this letter stands for ten.
pub fn hex_digit(n: u8, ten: u8) -> u8
    requires number { n < 16 }
    requires letter { 10 ≤ ten }
    requires letters { ten ≤ 250 }
    ensures { result ≡ hex_digit ten n }
{
    if n < 10 { b'0' + n } else { ten - 10 + n }
}

#[cfg(test)]
mod tests {
    use super::{decimal, hex_digit};

    #[test]
    fn numerals_and_others(rt: HostRuntime) {
        assert_eq!(rt; decimal("0"), Some(0));
        assert_eq!(rt; decimal("0042"), Some(42));
        assert_eq!(rt;
            decimal("9999999999999999999"),
            Some(9_999_999_999_999_999_999)
        );
        assert_eq!(rt; decimal("10000000000000000000"), None);
        assert_eq!(rt; decimal(""), None);
        assert_eq!(rt; decimal("+7"), None);
        assert_eq!(rt; decimal("-7"), None);
        assert_eq!(rt; decimal("7 "), None);
        assert_eq!(rt; decimal("0x7"), None);
    }

    #[test]
    fn digits_and_letters(rt: HostRuntime) {
        assert_eq!(rt; hex_digit(0, b'a'), b'0');
        assert_eq!(rt; hex_digit(9, b'a'), b'9');
        assert_eq!(rt; hex_digit(10, b'a'), b'a');
        assert_eq!(rt; hex_digit(15, b'a'), b'f');
        assert_eq!(rt; hex_digit(15, b'A'), b'F');
    }
}
