// Places that callers give.
// The public readers take the bytes with any place, past the end too, and refuse it: a `Lexer` would ask its caller for the bound.
ghost use Rattle.std.specs.Prelude.{◌≡◌, ◌<◌, length, MatchResult};
ghost use Rattle.faults.specs.declared.reason.Reason.TheVariants.{BytesEnd};
ghost use Rattle.format.specs.Failures.{object_fault};

use faults::fault::Fault;
use faults::layer::Layer;
use faults::reason::Reason;
use lexer::reader::Lexer;

// A reader of the bytes from the place on, which stands within them or at their end; past it, the bytes end before the place.
pub fn lexer_at(src: &[u8], from: usize) -> Result<Lexer<'_>, Fault>
    ensures { MatchResult result (λ at. (at.src.now ≡ src.now) × (at.place ≡ from)) (λ f. (length src.now < from) × (f ≡ object_fault BytesEnd from)) }
{
    if from > src.len() {
        return Err(Fault::met(Reason::BytesEnd, Layer::Object, from));
    }
    Ok(Lexer::new(src).to(from))
}
