// What a commit may count on, in numbers: each function here carries a statement in its contract.
#![tactic(auto)]

ghost use Rattle.bounds.specs.Bounded.{OpenFilesAreBounded};
ghost use Rattle.bounds.specs.Deciding.{CommitsDecidedByNumbers};

// The sizes, generations and places of an open file keep their bounds.
pub fn open_files_are_bounded()
    ensures { OpenFilesAreBounded }
{}

// What a commit decides follows from how many revisions and bytes there are and would be.
pub fn commits_decided_by_numbers()
    ensures { CommitsDecidedByNumbers }
{}
