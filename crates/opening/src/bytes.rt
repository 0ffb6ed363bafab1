// Digits.
pub use lexer::bytes::is_digit;
