// What the bench calls a token.
ghost use Rattle.std.specs.Prelude.{◌≡◌};
ghost use Rattle.lexer.specs.Views.{kind_of};
ghost use Rattle.replay.specs.Sorts.{sort_of, word_sort};

use lexer::name::same_bytes;
use lexer::token::Token;
use std::fmt;

#[derive(Clone, Copy)]
pub enum Sort {
    Integer,
    Real,
    Name,
    Text,
    Hex,
    OpenArray,
    CloseArray,
    OpenDict,
    CloseDict,
    True,
    False,
    Null,
    Reference,
    Object,
    EndObject,
    Stream,
    EndStream,
    // Any other word.
    Word,
}

impl Sort {
    // The end of the bytes is no token.
    pub fn of(token: Token<'_>) -> Option<Sort>
        ensures { result ≡ sort_of (kind_of token.entry) }
    {
        match token {
            Token::Unsigned(_) | Token::Signed(_) => Some(Sort::Integer),
            Token::Real(_) => Some(Sort::Real),
            Token::Name(_) => Some(Sort::Name),
            Token::Text(_) => Some(Sort::Text),
            Token::Hex(_) => Some(Sort::Hex),
            Token::Word(word) => Some(Sort::of_word(word)),
            Token::OpenArray => Some(Sort::OpenArray),
            Token::CloseArray => Some(Sort::CloseArray),
            Token::OpenDict => Some(Sort::OpenDict),
            Token::CloseDict => Some(Sort::CloseDict),
            Token::End => None,
        }
    }

    // By tests: tried as a `match` over byte strings, whose default arm has forty goals, and none of them closed. Over `&str` a `match` closes,
    // as in `Command::named`, but a token's bytes need not be text.
    fn of_word(word: &[u8]) -> Sort
        ensures { result ≡ word_sort word.now }
    {
        if same_bytes(word, b"true") {
            Sort::True
        } else if same_bytes(word, b"false") {
            Sort::False
        } else if same_bytes(word, b"null") {
            Sort::Null
        } else if same_bytes(word, b"R") {
            Sort::Reference
        } else if same_bytes(word, b"obj") {
            Sort::Object
        } else if same_bytes(word, b"endobj") {
            Sort::EndObject
        } else if same_bytes(word, b"stream") {
            Sort::Stream
        } else if same_bytes(word, b"endstream") {
            Sort::EndStream
        } else {
            Sort::Word
        }
    }
}

impl fmt::Display for Sort {
    fn fmt<W: fmt::Write>(&self, f: &mut fmt::Formatter<W>) -> fmt::Result {
        let word = match self {
            Sort::Integer => "int",
            Sort::Real => "real",
            Sort::Name => "name",
            Sort::Text => "string",
            Sort::Hex => "hex",
            Sort::OpenArray => "[",
            Sort::CloseArray => "]",
            Sort::OpenDict => "<<",
            Sort::CloseDict => ">>",
            Sort::True => "true",
            Sort::False => "false",
            Sort::Null => "null",
            Sort::Reference => "R",
            Sort::Object => "obj",
            Sort::EndObject => "endobj",
            Sort::Stream => "stream",
            Sort::EndStream => "endstream",
            Sort::Word => "word",
        };
        write!(f, "{word}")
    }
}
