// The tail of a section, read backwards.
ghost use Rattle.sections.specs.Found.{TailsAreFound};

// The tail at the end of a file is found from there, and gives the offset that it was written with.
pub fn tails_are_found_from_the_end()
    ensures { TailsAreFound }
{}
