// Written sections read back.
ghost use Rattle.sections.specs.Spelling.{DigitsReadBack};
ghost use Rattle.sections.specs.Written.{WrittenSectionsReadBack};

// A number in decimal is read again, before any byte that is no digit.
pub fn digits_read_back()
    ensures { DigitsReadBack }
{}

// A section as it is written reads as that section, before any bytes, and lists exactly what is listed.
pub fn written_sections_read_back()
    ensures { WrittenSectionsReadBack }
{}
