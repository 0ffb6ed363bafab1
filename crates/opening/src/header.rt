// The header of a file.
ghost use Rattle.std.specs.Prelude.{◌≡◌, ℕ, ◌≤◌, ◌&&◌, take, nat_le};
ghost use Rattle.format.specs.Bytes.{Bytes};
ghost use Rattle.format.specs.Revisions.{version_fits, header_fits};

// A digit 0 to 7.
#[tactic(auto, using(std::proofs::lemmas::Bool::Decides::nat_tests))]
fn is_version(b: u8) -> bool
    ensures { result ≡ (nat_le 48 b && nat_le b 55) }
{
    matches!(b, b'0'..=b'7')
}

#[tactic(auto, unfolding(format::specs::Revisions::version_fits))]
fn version_fits(rest: &[u8]) -> bool
    ensures { result ≡ version_fits rest.now }
{
    rest.first().is_some_and(|b| is_version(*b))
}

// Whether these bytes begin with `%PDF-1.` and a digit 0 to 7, and so any file whose first bytes they are, where they are 8 or more or the whole file.
pub fn header_fits(src: &[u8]) -> bool
    ensures is { result ≡ header_fits src.now }
    ensures begins { (file : Bytes) (n : ℕ) → 8 ≤ n → src.now ≡ take n file → result ≡ header_fits file }
{
    src.strip_prefix(b"%PDF-1.").is_some_and(version_fits)
}
