// What a book stands on when it commits an update.
ghost use Rattle.keeping.specs.Committing.{NewestSectionReads, UpdatesStayAcceptable, AcceptedCommitsFit, CommitsReadBack, TablesAfterCommit};

// The newest section is where the newest revision has it, with that revision's trailer.
pub fn newest_section_reads()
    ensures { NewestSectionReads }
{}

// An update is acceptable when it begins, and stays so with each accepted change.
pub fn updates_stay_acceptable()
    ensures { UpdatesStayAcceptable }
{}

// An accepted commit has a change, keeps the limits and has the space.
pub fn accepted_commits_fit()
    ensures { AcceptedCommitsFit }
{}

// The bytes of an update are read back behind the file, and make one more revision.
pub fn commits_read_back()
    ensures { CommitsReadBack }
{}

// With one more row the tables are those of the longer file.
pub fn tables_after_commit()
    ensures { TablesAfterCommit }
{}
