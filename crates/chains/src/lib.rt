// Chains of sections: the bytes up to a revision's end open as the revisions up to it, and what stands behind a file leaves its revisions as they are.
#![tactic(auto)]

ghost use Rattle.chains.specs.Stated.{LongerOpen, UpdatesOpen, EndsAscend};
ghost use Rattle.format.specs.Theorems.{PrefixesOpen};

// The bytes of a file up to the end of its revision k open as its first k revisions.
pub fn prefixes_open()
    ensures { PrefixesOpen }
{}

// A file with one more section behind it opens as its old revisions and one more.
pub fn longer_files_open()
    ensures { LongerOpen }
{}

// A file with an update behind it, whose section reads back, opens as its old revisions and one more.
pub fn updated_files_open()
    ensures { UpdatesOpen }
{}

// Revisions stand one behind another, and the newest ends where the file ends.
pub fn ends_ascend()
    ensures { EndsAscend }
{}
