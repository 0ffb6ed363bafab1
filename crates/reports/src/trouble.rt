// Why there is no report.
ghost use Rattle.std.specs.Prelude.{◌≡◌};
ghost use Rattle.reports.specs.declared.trouble.Trouble.TheVariants.{NoMemory, Refused};

use faults::fault::Fault;
use std::alloc::AllocError;

// `WorkError` of crate `runs` has the same two cases, but neither crate stands on the other, and in `book`, below both, no call has both answers.
#[derive(Clone, Copy, PartialEq, Eq, Debug)]
pub enum Trouble {
    NoMemory,
    Refused(Fault),
}

// By hand, as clauses name what `?` makes of an error: a derived `From` has no contract.
impl From<Fault> for Trouble {
    ghost from_gives = { λ f r. r ≡ Refused f };

    fn from(f: Fault) -> Trouble {
        Trouble::Refused(f)
    }
}

impl From<AllocError> for Trouble {
    ghost from_gives = { λ _ r. r ≡ NoMemory };

    fn from(_e: AllocError) -> Trouble {
        Trouble::NoMemory
    }
}
