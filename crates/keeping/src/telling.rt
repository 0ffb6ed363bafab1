// What tables tell of the revisions of their file.
ghost use Rattle.keeping.specs.Telling.{TablesTell, LastRowIsNewest, CellsTell};

// Each row stands for its revision, and there are as many rows as revisions.
pub fn tables_tell()
    ensures { TablesTell }
{}

// The last row of an open file stands for its newest revision.
pub fn last_row_is_newest()
    ensures { LastRowIsNewest }
{}

// Each cell stands for the state of its number.
pub fn cells_tell()
    ensures { CellsTell }
{}
