// An acceptable update of a sound table, from its cells to the table that it leaves.
ghost use Rattle.tables.specs.Statements.{EntriesMeetTheRules, UpdatesLeaveWhatTheySay, RowsTell, OpenedTablesAreSound, RowsMakeTheRevision};

// What an update lists meets the rules that opening asks of it.
pub fn written_entries_meet_the_rules()
    ensures { EntriesMeetTheRules }
{}

// The table that opening computes from it shows what applying the update leaves, and is sound again.
pub fn updates_leave_what_they_say()
    ensures { UpdatesLeaveWhatTheySay }
{}

// From what an update lists, and the table before, the update can be read back.
pub fn rows_tell_the_update()
    ensures { RowsTell }
{}

// Every table of a file that opens is sound.
pub fn opened_tables_are_sound()
    ensures { OpenedTablesAreSound }
{}

// A section that lists what an update lists makes the revision that shows what the update leaves.
pub fn rows_make_the_revision()
    ensures { RowsMakeTheRevision }
{}
