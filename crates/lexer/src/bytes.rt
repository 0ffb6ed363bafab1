// Classes of bytes.
ghost use Rattle.std.specs.Prelude.{◌≡◌};
ghost use Rattle.format.specs.Bytes.{is_white, is_delimiter, is_regular, is_eol, is_digit};
ghost use Rattle.format.specs.Names.{hex_digit};
ghost use Rattle.format.specs.Strings.{is_hex};

// Every byte of a run is asked, so they are compared one by one: by `matches!` a long run took twice as long.
#[tactic(auto, using(std::proofs::lemmas::Bool::Decides::nat_tests), unfolding(format::specs::Bytes::is_white))]
pub fn is_white(b: u8) -> bool
    ensures { result ≡ is_white b }
{
    b == b' ' || b == b'\n' || b == b'\r' || b == b'\t' || b == 0 || b == 12
}

// One by one, as above.
#[tactic(auto, using(std::proofs::lemmas::Bool::Decides::nat_tests), unfolding(format::specs::Bytes::is_delimiter))]
pub fn is_delimiter(b: u8) -> bool
    ensures { result ≡ is_delimiter b }
{
    b == b'/'
        || b == b'('
        || b == b')'
        || b == b'<'
        || b == b'>'
        || b == b'['
        || b == b']'
        || b == b'{'
        || b == b'}'
        || b == b'%'
}

#[tactic(auto, using(std::proofs::lemmas::Bool::Decides::nat_tests), unfolding(format::specs::Bytes::is_regular))]
pub fn is_regular(b: u8) -> bool
    ensures { result ≡ is_regular b }
{
    !is_white(b) && !is_delimiter(b)
}

#[tactic(auto, using(std::proofs::lemmas::Bool::Decides::nat_tests), unfolding(format::specs::Bytes::is_eol))]
pub fn is_eol(b: u8) -> bool
    ensures { result ≡ is_eol b }
{
    matches!(b, b'\n' | b'\r')
}

#[tactic(auto, using(std::proofs::lemmas::Bool::Decides::nat_tests), unfolding(format::specs::Bytes::is_digit))]
pub fn is_digit(b: u8) -> bool
    ensures { result ≡ is_digit b }
{
    matches!(b, b'0'..=b'9')
}

// What a hex digit counts.
pub fn hex_digit(b: u8) -> Option<u8>
    ensures { result ≡ hex_digit b }
{
    match b {
        b'0'..=b'9' => Some(b - b'0'),
        b'A'..=b'F' => Some(b - b'A' + 10),
        b'a'..=b'f' => Some(b - b'a' + 10),
        _ => None,
    }
}

pub fn is_hex(b: u8) -> bool
    ensures { result ≡ is_hex b }
{
    hex_digit(b).is_some()
}
