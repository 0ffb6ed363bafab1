// The layers that can meet a fault, from the bytes up to the book and the store below it.
ghost use Rattle.std.specs.Prelude.{◌≡◌, Some, codes};
ghost use Rattle.faults.specs.Layers.{layer_number, layer_words};

use std::fmt;

#[derive(Clone, Copy, PartialEq, Eq, Debug)]
pub enum Layer {
    Token = 1,
    Object = 2,
    Section = 3,
    Chain = 4,
    Book = 5,
    Store = 6,
}

impl Layer {
    // The number that the layer goes by, from 1.
    pub fn number(self) -> u8
        ensures { result ≡ layer_number self }
    {
        // the number is the variant's own, and no `From` gives that
        self as u8
    }

    fn words(self) -> &'static str
        ensures { result.now ≡ layer_words self }
    {
        match self {
            Layer::Token => "token",
            Layer::Object => "object",
            Layer::Section => "section",
            Layer::Chain => "chain",
            Layer::Book => "book",
            Layer::Store => "store",
        }
    }
}

// For each type of words again: a foreign trait cannot be implemented for all types that have words.
impl fmt::Display for Layer {
    ghost output = { λ l. Some (layer_words l) };

    fn fmt<W: fmt::Write>(&self, f: &mut fmt::Formatter<W>) -> fmt::Result {
        let words = self.words();
        write!(f, "{words}")
    }
}
