// Bytes that stand together, with the place where they start.
ghost use Rattle.std.specs.Prelude.{◌≡◌, ◌+◌, ◌^◌, ◌<◌, length, drop};

// Some of the bytes, and the place of the first: a flaw in them is told by its place among all.
#[derive(Clone, Copy)]
pub struct Run<'a> {
    pub bytes: &'a [u8],
    pub from: usize,
    // the place behind the last can be counted
    ghost counts: { from + length bytes.now < 2 ^ 64 },
}

impl<'a> Run<'a> {
    // Those behind the first.
    pub fn behind(self) -> Run<'a>
        requires { 0 < length self.bytes.now }
        ensures bytes { result.bytes.now ≡ drop 1 self.entry.bytes.now }
        ensures place { result.from ≡ self.entry.from + 1 }
    {
        Run {
            bytes: &self.bytes[1..],
            from: self.from + 1,
        }
    }
}
