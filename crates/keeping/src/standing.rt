// What every call leaves of a book's tables.
ghost use Rattle.keeping.specs.Standing.{SoundStays};

// Every accepted call leaves the tables those of the book's bytes.
pub fn sound_stays()
    ensures { SoundStays }
{}
