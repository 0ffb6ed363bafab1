// Runs of digits, and the numbers that they spell.
ghost use Rattle.std.specs.Prelude.{◌≡◌, ◌+◌, ◌-◌, ◌*◌, ◌^◌, ◌<◌, ◌≤◌, true, length, min};
ghost use Rattle.std.specs.List.{AllPass, prefix_len, suffix_len};
ghost use Rattle.format.specs.Bytes.{is_digit, value};

use lexer::bytes::is_digit;

// How many digits these bytes begin with.
fn digits_in_front(src: &[u8]) -> usize
    ensures { result ≡ prefix_len is_digit src.now }
{
    src.iter().take_while(|b| is_digit(**b)).count()
}

// How many digits these bytes end with.
fn digits_at_end(src: &[u8]) -> usize
    ensures { result ≡ suffix_len is_digit src.now }
{
    src.iter().rev().take_while(|b| is_digit(**b)).count()
}

// How many digits these bytes begin with, where no more than `most` bytes are looked at: a longer run costs no more.
pub(crate) fn first_digits(most: usize, src: &[u8]) -> usize
    ensures { result ≡ min most (prefix_len is_digit src.now) }
{
    digits_in_front(&src[..most.min(src.len())])
}

// How many digits these bytes end with, where no more than `most` bytes are looked at.
pub(crate) fn last_digits(most: usize, src: &[u8]) -> usize
    ensures { result ≡ min most (suffix_len is_digit src.now) }
{
    digits_at_end(&src[src.len().saturating_sub(most)..])
}

// The number behind one more digit.
#[tactic(auto, using(std::proofs::lemmas::Bool::Decides::nat_tests), unfolding(format::specs::Bytes::is_digit))]
fn with_digit(n: u64, b: u8) -> u64
    requires { (n < 1000000000) × (is_digit b ≡ true) }
    ensures { result ≡ n * 10 + (b - 48) }
{
    n * 10 + u64::from(b - b'0')
}

// The number that up to ten digits spell.
pub(crate) fn number(digits: &[u8]) -> u64
    requires few { length digits.now ≤ 10 }
    requires digits { AllPass is_digit digits.now }
    ensures is { result ≡ value digits.now }
    ensures small { result < 10 ^ length digits.now }
{
    let mut n = 0;
    for b in digits {
        n = with_digit(n, *b);
    }
    n
}
