// The subsections of a section. Each entry takes 20 bytes of the window, so that there is room for the rows of all of them.
// That there is room (`Window`) stays a clause of each reader here: it speaks of the place and of the rows, two values that change apart.
ghost use Rattle.std.specs.Prelude.{◌≡◌, ◌+◌, ◌*◌, ◌^◌, ◌<◌, ◌≤◌, not, ◌&&◌, ◌++◌, length, drop, IfOk, ◌==◌};
ghost use Rattle.format.specs.Sections.{slots, sub, begins_digit, subs, all_subs, listed};
ghost use Rattle.format.specs.Strings.{turns};
ghost use Rattle.opening.specs.Held.{listed_by, HeldBefore, Window};
ghost use Rattle.opening.specs.Places.{spot, rest};
ghost use Rattle.opening.specs.Readings.{Reads};
ghost use Rattle.opening.specs.Subsections.{sub_behind, sub_here, all_behind, all_here};

use crate::entry::entry_at;
use crate::lines::subsection_line;
use crate::part::Lack;
use crate::rows::Rows;
use crate::view::View;
use entries::entry::Row;
use faults::fault::Fault;
use lexer::bytes::is_digit;
use lexer::reader::Lexer;

// A subsection: its first number, how many entries it has, and the place behind it.
#[derive(Clone, Copy, Debug, PartialEq, Eq)]
pub struct Subsection {
    pub first: u64,
    pub count: u64,
    pub end: usize,
}

// The subsections of a section: the place behind them, and whether there is one only, from 0.
#[derive(Clone, Copy, Debug, PartialEq, Eq)]
pub struct Subsections {
    pub end: usize,
    pub one_from_zero: bool,
}

// The entries of a subsection, whose numbers count up from the first: the place behind them.
fn read_entries(view: View<'_>, first: u64, count: u64, rows: &mut Rows) -> Result<usize, Fault>
    requires window { Window view.at.src.now view.at.place rows.old }
    requires numbers { first + count < 2 ^ 64 }
    ensures is { Reads (λ ss. listed_by rows.old ++ ss) (slots count first (spot view.entry) (rest view.entry)) (λ _. listed_by rows.new) (λ q. q) view.entry.base view.entry.at.src.now view.entry.at.place result }
    ensures held { IfOk result (λ q. HeldBefore q rows.new) }
    ensures long { IfOk result (λ q. view.entry.at.place + 20 * count ≤ q) }
{
    let mut line = view;
    for number in first..first + count {
        let (entry, end) = line.placed(entry_at(line.at))?;
        rows.push(Row { number, entry });
        line = line.to(end);
    }
    Ok(line.at.place)
}

// A subsection from the number `low` up, with at least one entry.
fn read_subsection(view: View<'_>, low: u64, rows: &mut Rows) -> Result<Subsection, Fault>
    requires { Window view.at.src.now view.at.place rows.old }
    ensures is { Reads (sub_behind (listed_by rows.old)) (sub low (spot view.entry) (rest view.entry)) (sub_here (listed_by rows.new)) (λ s. s.end) view.entry.base view.entry.at.src.now view.entry.at.place result }
    ensures held { IfOk result (λ s. HeldBefore s.end rows.new) }
    ensures long { IfOk result (λ s. view.entry.at.place < s.end) }
    ensures small { IfOk result (λ s. (s.first < 10 ^ 10) × (s.count < 10 ^ 10)) }
{
    let ((first, count), line_end) = view.placed(subsection_line(view.at))?;
    if first < low || count == 0 {
        return Err(view.line_fault(Lack::Misfit));
    }
    let end = read_entries(view.to(line_end), first, count, rows)?;
    Ok(Subsection { first, count, end })
}

// Whether a digit stands next, and so another subsection.
fn begins_digit(at: Lexer<'_>) -> bool
    ensures { result ≡ begins_digit (drop at.entry.place at.entry.src.now) }
{
    at.src.get(at.place).is_some_and(|b| is_digit(*b))
}

// The subsections behind the first one, from the number `low` up: the place behind them.
fn read_more(view: View<'_>, low: u64, rows: &mut Rows) -> Result<usize, Fault>
    requires { Window view.at.src.now view.at.place rows.old }
    ensures { Reads (λ ss. listed_by rows.old ++ listed ss) (subs turns low (spot view.entry) (rest view.entry)) (λ _. listed_by rows.new) (λ q. q) view.entry.base view.entry.at.src.now view.entry.at.place result }
{
    let mut line = view;
    let mut next = low;
    while begins_digit(line.at) {
        let one = read_subsection(line, next, rows)?;
        next = one.first + one.count;
        line = line.to(one.end);
    }
    Ok(line.at.place)
}

// Whether a subsection with that first number, behind which these bytes stand, is the only one and starts from 0.
fn is_one_from_zero(first: u64, behind: Lexer<'_>) -> bool
    ensures { result ≡ (first == 0 && not (begins_digit (drop behind.entry.place behind.entry.src.now))) }
{
    first == 0 && !begins_digit(behind)
}

// One subsection and more, ascending, none over another.
pub fn read_subsections(view: View<'_>, rows: &mut Rows) -> Result<Subsections, Fault>
    requires { Window view.at.src.now view.at.place rows.old }
    ensures { Reads (all_behind (listed_by rows.old)) (all_subs (spot view.entry) (rest view.entry)) (all_here (listed_by rows.new)) (λ s. s.end) view.entry.base view.entry.at.src.now view.entry.at.place result }
{
    let one = read_subsection(view, 0, rows)?;
    let behind = view.to(one.end);
    let one_from_zero = is_one_from_zero(one.first, behind.at);
    let end = read_more(behind, one.first + one.count, rows)?;
    Ok(Subsections { end, one_from_zero })
}
