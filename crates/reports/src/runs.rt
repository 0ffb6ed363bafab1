// Numbers in short: each unbroken run of them by its first and its last.
ghost use Rattle.std.specs.Prelude.{◌≡◌, ◌+◌, IfOk, ◌==◌};
ghost use Rattle.std.specs.List.{flat_map};
ghost use Rattle.reports.specs.Runs.{numbers_in, runs_of};

use std::alloc::{AllocError, Global};

#[derive(Clone, Copy, Debug, PartialEq, Eq)]
pub struct Run {
    pub first: usize,
    pub last: usize,
}

// The runs of numbers, and nothing is lost by it: written out they are the numbers again.
pub fn runs(heap: Global, numbers: &[usize]) -> Result<Vec<Run>, AllocError>
    ensures runs { IfOk result (λ v. v.items ≡ runs_of numbers.now) }
    ensures whole { IfOk result (λ v. flat_map numbers_in v.items ≡ numbers.now) }
{
    let mut all = Vec::new(heap);
    for run in numbers.chunk_by(|last, n| follows(*last, *n)) {
        all.push(Run {
            first: run[0],
            last: run[run.len() - 1],
        })?;
    }
    Ok(all)
}

// Whether n is the next number.
fn follows(last: usize, n: usize) -> bool
    ensures { result ≡ (n == last + 1) }
{
    last.checked_add(1) == Some(n)
}
