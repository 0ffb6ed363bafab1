// What follows from the law over whole runs.
ghost use Rattle.laws.specs.Consequences.{FileFollowsAccount, GoingBackLeavesNoTrace, RevisionsStay, WithdrawnNumbersReturnHigher, UpdatesKeepFreeList, CommitsKeepFreeList};

// The file after a run depends on the opening bytes, what is kept and what is held, and on nothing else.
pub fn file_follows_account()
    ensures { FileFollowsAccount }
{}

// A run that went back to a revision and one that never left it end in the same file, if the same calls are accepted from there on.
pub fn going_back_leaves_no_trace()
    ensures { GoingBackLeavesNoTrace }
{}

// A revision keeps its bytes and its objects for as long as no call goes back behind it.
pub fn revisions_stay()
    ensures { RevisionsStay }
{}

// A number that was withdrawn returns with a generation above each that it bore.
pub fn withdrawn_numbers_return_higher()
    ensures { WithdrawnNumbersReturnHigher }
{}

// In each revision that an update made, the links run from 0 through all free numbers, ascending, and back to 0.
pub fn updates_keep_free_list()
    ensures { UpdatesKeepFreeList }
{}

// So they do in the newest revision after an accepted commit.
pub fn commits_keep_free_list()
    ensures { CommitsKeepFreeList }
{}
