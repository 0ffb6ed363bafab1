// The first byte of a token.
ghost use Rattle.std.specs.Prelude.{◌<◌, length};

// The bytes, and a place in them where a byte stands.
#[derive(Clone, Copy)]
pub struct Head<'a> {
    pub src: &'a [u8],
    pub at: usize,
    ghost stands: { at < length src.now },
}
