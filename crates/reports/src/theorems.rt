// What the definition of the differences says.
ghost use Rattle.reports.specs.Told.{DifferencesTell, RevisionsAreWhole};

// Every number is listed of which something became, with what became of it, and no other; the numbers ascend.
pub fn differences_tell()
    ensures tell { DifferencesTell }
    ensures whole { RevisionsAreWhole }
{}
