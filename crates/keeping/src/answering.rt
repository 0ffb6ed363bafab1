// What the questions to an open book answer, read off its tables.
ghost use Rattle.keeping.specs.Answering.{ShutBooksAnswerNothing, CountFromRows, UsedCellsCount, ListFromRows, FetchFromCells, DrawFromRows};

// A shut book answers no question.
pub fn shut_books_answer_nothing()
    ensures { ShutBooksAnswerNothing }
{}

// There are as many revisions as rows.
pub fn count_from_rows()
    ensures { CountFromRows }
{}

// The cells in use are counted one after the other.
pub fn used_cells_count()
    ensures { UsedCellsCount }
{}

// List answers what the revision's row has, and how many of its cells are in use.
pub fn list_from_rows()
    ensures { ListFromRows }
{}

// Fetch answers from the number's cell.
pub fn fetch_from_cells()
    ensures { FetchFromCells }
{}

// Drawing out takes the bytes up to the end that the revision's row has.
pub fn draw_from_rows()
    ensures { DrawFromRows }
{}
