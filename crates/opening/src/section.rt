// A whole section.
ghost use Rattle.std.specs.Prelude.{◌≡◌, ◌+◌, ◌^◌, ◌<◌, ◌≤◌, length, MatchResult};
ghost use Rattle.format.specs.Bytes.{bad};
ghost use Rattle.format.specs.Chain.{window_bytes};
ghost use Rattle.format.specs.Sections.{section};
ghost use Rattle.opening.specs.Sections.{SectionRead};

use crate::lines::{exact, exact_line};
use crate::rows::Rows;
use crate::subsections::read_subsections;
use crate::view::View;
use faults::fault::Fault;
use lexer::reader::Lexer;
use objects::dictionary::dictionary_at;

// The place behind its tail, where its trailer's `<<` stands and the place behind that, each in the window; and whether it has one subsection only,
// from 0.
#[derive(Clone, Copy, Debug, PartialEq, Eq)]
pub struct Section {
    pub end: usize,
    pub mark: usize,
    pub inside: usize,
    pub one_from_zero: bool,
}

// The section that starts at the place `base` of the file, where the window begins; its rows are held then, and no others.
// That the places of the window can be counted in the file is asked of the caller here; from here on `View` has it.
pub fn read_section(base: usize, src: &[u8], rows: &mut Rows) -> Result<Section, Fault>
    requires counts { base + length src.now < 2 ^ 64 }
    requires few { length src.now ≤ window_bytes }
    ensures { MatchResult result (λ s. SectionRead base src.now s rows.new) (λ f. section base src.now ≡ bad f) }
{
    let view = View {
        base,
        at: Lexer::new(src),
    };
    rows.clear();
    let start = view.placed(exact_line(view.at, b"xref"))?;
    let subsections = read_subsections(view.to(start), rows)?;
    let word = view.to(subsections.end);
    let word_end = word.placed(exact(word.at, b"trailer"))?;
    let dictionary = dictionary_at(base, view.at.to(word_end))?;
    let tail_start = view.at.to(dictionary.end).skip_space();
    // `as`: there is no `From` between `usize` and `u64`, and `try_from` would answer an error that never comes
    let end = view.to(tail_start).tail(base as u64)?;
    Ok(Section {
        end,
        mark: dictionary.mark,
        inside: dictionary.inside,
        one_from_zero: subsections.one_from_zero,
    })
}
