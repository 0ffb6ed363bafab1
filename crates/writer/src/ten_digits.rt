// Numbers of at most ten digits: the format writes numbers and places in no more.
ghost use Rattle.std.specs.Prelude.{◌≡◌, ◌/◌, ◌^◌, ◌<◌};

#[derive(Clone, Copy, Debug)]
pub struct TenDigits {
    pub value: u64,
    ghost small: { value < 10 ^ 10 },
}

impl TenDigits {
    // The number without its last digit.
    pub fn tens(self) -> TenDigits
        ensures { result.value ≡ self.value / 10 }
    {
        TenDigits {
            value: self.value / 10,
        }
    }
}

// Any `u32` has at most ten digits.
impl From<u32> for TenDigits {
    ghost from_gives = { λ n d. d.value ≡ n };

    fn from(n: u32) -> TenDigits {
        TenDigits {
            value: u64::from(n),
        }
    }
}
