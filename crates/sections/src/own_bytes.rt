// Reading a section depends on its own bytes only.
ghost use Rattle.sections.specs.OwnBytes.{SectionsAreLocal};

// A section that was read is read again of its own bytes, before any others that do not begin with LF, if its trailer is.
pub fn sections_are_local()
    ensures { SectionsAreLocal }
{}
