// Numbers as a command line writes them.
pub use numerals::decimal;
