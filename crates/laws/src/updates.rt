// What an update writes is read back.
ghost use Rattle.format.specs.Theorems.{UpdatesReadBack, UpdatesTellApart};
ghost use Rattle.laws.specs.Orders.{ChangesInAnyOrder, RefusedCallsAlterNothing};

// A file with an acceptable update behind it opens as its old revisions and one more, which shows what the update leaves.
pub fn updates_read_back()
    ensures { UpdatesReadBack }
{}

// From the bytes of a file and the table before its newest revision, the update that made that revision can be told.
pub fn updates_tell_apart()
    ensures { UpdatesTellApart }
{}

// Changes of two numbers are one update, in whichever order they were made.
pub fn changes_in_any_order()
    ensures { ChangesInAnyOrder }
{}

// A refused call is not in the account.
pub fn refused_calls_alter_nothing()
    ensures { RefusedCallsAlterNothing }
{}
