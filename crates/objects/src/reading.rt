// How objects are read.
ghost use Rattle.std.specs.Prelude.{◌≡◌, suc, true, false, MatchResult};
ghost use Rattle.faults.specs.declared.reason.Reason.TheVariants.{TooDeep};
ghost use Rattle.format.specs.Failures.{object_fault};

use faults::fault::Fault;
use faults::layer::Layer;
use faults::reason::Reason;

// How deep arrays and dictionaries may nest, and whether a dictionary that has a key twice is refused.
#[derive(Clone, Copy)]
pub struct Reading {
    pub depth: u8,
    pub check: bool,
}

impl Reading {
    // No dictionary may have a key twice.
    pub fn checked(depth: u8) -> Reading
        ensures { result ≡ record { depth = depth; check = true } }
    {
        Reading { depth, check: true }
    }

    // Keys are not looked at.
    pub fn unchecked(depth: u8) -> Reading
        ensures { result ≡ record { depth = depth; check = false } }
    {
        Reading {
            depth,
            check: false,
        }
    }

    // What stands inside an array or a dictionary is read like this, where the mark that opens it does not nest too deep.
    pub fn deeper(self, mark: usize) -> Result<Reading, Fault>
        ensures { MatchResult result (λ inner. (self.depth ≡ suc inner.depth) × (self.check ≡ inner.check)) (λ f. (self.depth ≡ 0) × (f ≡ object_fault TooDeep mark)) }
    {
        let depth = self
            .depth
            .checked_sub(1)
            .ok_or(Fault::met(Reason::TooDeep, Layer::Object, mark))?;
        Ok(Reading { depth, ..self })
    }
}
