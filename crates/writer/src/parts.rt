// What the pieces make together.
ghost use Rattle.writer.specs.Bounds.{Bounds};
ghost use Rattle.writer.specs.Parts.{Parts};

// The pieces in their order are a section; runs and copied trailer entries come one by one.
pub fn pieces_make_a_section()
    ensures { Parts }
{}

// How many bytes each piece is at most.
pub fn pieces_are_bounded()
    ensures { Bounds }
{}
