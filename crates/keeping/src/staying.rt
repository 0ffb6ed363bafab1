// Tables that stay: while the file grows, gains a revision, or is cut.
ghost use Rattle.keeping.specs.Staying.{SectionsStartWithin, TablesGrow, TablesTakeOneMore, TablesAreCut};

// Every section of an open file starts within the file.
pub fn sections_start_within()
    ensures { SectionsStartWithin }
{}

// Bytes behind a file leave its tables as they are.
pub fn tables_grow()
    ensures { TablesGrow }
{}

// One more revision is one more row, with its cells behind the others.
pub fn tables_take_one_more()
    ensures { TablesTakeOneMore }
{}

// A file cut at a revision's end has the rows and cells up to that revision.
pub fn tables_are_cut()
    ensures { TablesAreCut }
{}
