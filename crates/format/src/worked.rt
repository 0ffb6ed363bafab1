// What the definitions make of examples.
ghost use Rattle.format.specs.Truths.{Truths};
ghost use Rattle.format.specs.Worked.{WorkedCases};

// The worked file of 181 bytes, three updates of it, going back, and four small objects.
pub fn worked_file_reads_as_written()
    ensures { WorkedCases }
{}

// Small truths of every layer, each of which a wrong definition would break.
pub fn definitions_meet_small_truths()
    ensures { Truths }
{}
