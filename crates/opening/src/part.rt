// What a part of a line lacks: an end of line is one, and the lexer reads it.

pub use lexer::line::Lack;
