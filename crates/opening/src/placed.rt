// The faults of a line, and a section's tail.
ghost use Rattle.std.specs.Prelude.{◌≡◌, ◌≤◌, length};
ghost use Rattle.format.specs.Lines.{placed};
ghost use Rattle.format.specs.Sections.{tail};
ghost use Rattle.opening.specs.Answers.{lack_fault, line_fault, piece_here, answered, passed_to, EndsWithin};
ghost use Rattle.opening.specs.Places.{spot, rest};

use crate::lines::{exact_line, number_line};
use crate::part::Lack;
use crate::view::View;
use faults::fault::Fault;
use faults::layer::Layer;
use faults::reason::Reason;

// What a line or an entry lacks that starts at the place `here` of the file, as a fault; its bytes end at the place `end`.
fn lack_fault(here: usize, end: usize, lack: Lack) -> Fault
    ensures { result ≡ lack_fault here end lack }
{
    match lack {
        Lack::Short => Fault::met(Reason::BytesEnd, Layer::Section, end),
        Lack::Misfit => Fault::met(Reason::BadLine, Layer::Section, here),
    }
}

impl<'a> View<'a> {
    // The same bytes from another place on.
    pub(crate) fn to(self, place: usize) -> View<'a>
        requires { place ≤ length self.at.src.now }
        ensures base { result.base ≡ self.entry.base }
        ensures src { result.at.src.now ≡ self.entry.at.src.now }
        ensures place { result.at.place ≡ place }
    {
        View {
            base: self.base,
            at: self.at.to(place),
        }
    }

    // What a line or an entry that starts here lacks, as a fault.
    pub(crate) fn line_fault(self, lack: Lack) -> Fault
        ensures { result ≡ line_fault self.entry.base self.entry.at.place self.entry.at.src.now lack }
    {
        lack_fault(
            self.base + self.at.place,
            self.base + self.at.src.len(),
            lack,
        )
    }

    // The answer of a line or an entry that starts here, with its fault: where its bytes end, at the end of the view; where they do not fit, at its
    // first byte.
    pub fn placed<T>(self, part: Result<T, Lack>) -> Result<T, Fault>
        ensures { result ≡ answered (placed (spot self.entry) (rest self.entry) (piece_here part)) }
    {
        // the closure captures two numbers: where it captures the view, what `map_err` ensures tells nothing of the fault that it answers
        let here = self.base + self.at.place;
        let end = self.base + self.at.src.len();
        part.map_err(|lack| lack_fault(here, end, lack))
    }

    // A tail that gives the offset `offset`: `startxref`, the digits, `%%EOF`, each a line.
    pub fn tail(self, offset: u64) -> Result<usize, Fault>
        ensures is { tail offset (spot self.entry) (rest self.entry) ≡ passed_to self.entry.base self.entry.at.src.now result }
        ensures within { EndsWithin self.entry.at.src.now self.entry.at.place result }
    {
        let number = self.placed(exact_line(self.at, b"startxref"))?;
        let second = self.to(number);
        let mark = second.placed(number_line(offset, second.at))?;
        let last = self.to(mark);
        last.placed(exact_line(last.at, b"%%EOF"))
    }
}
