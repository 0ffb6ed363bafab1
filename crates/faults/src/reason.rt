// What a refusal is about.
ghost use Rattle.std.specs.Prelude.{◌≡◌, Some};
ghost use Rattle.faults.specs.Rules.{layer_of, rule_of};

use crate::layer::Layer;
use std::fmt;

// The first fifteen come from the bytes that are read, the others from the state in which a call finds the book or its store.
#[derive(Clone, Copy, PartialEq, Eq, Debug)]
pub enum Reason {
    NoHeader = 2,
    NoTail = 3,
    BytesEnd = 4,
    BadToken = 5,
    TooDeep = 6,
    IntegerRange = 7,
    KeyAgain = 8,
    BadFrame = 9,
    BadLine = 10,
    BadTrailer = 11,
    ChainRule = 12,
    FileBound = 13,
    OutsideBody = 14,
    ShortBuffer = 16,
    StoreLength = 17,
    BookShut = 41,
    OpenAlready = 42,
    UpdateOpen = 43,
    NoUpdate = 44,
    SlipSpent = 45,
    NoRevision = 46,
    NotInUse = 47,
    CannotPut = 48,
    RootNumber = 49,
    ChangedAlready = 50,
    UpdateFull = 51,
    NoChanges = 52,
    PastLimits = 53,
    NoSpace = 54,
    CutPastEnd = 56,
}

impl Reason {
    // The number that the reason goes by.
    pub fn number(self) -> u8
        ensures { result ≡ (rule_of self).number }
    {
        // the number is the variant's own, and no `From` gives that
        self as u8
    }

    // The layer that meets it, and the lowest where several can.
    pub fn layer(self) -> Layer
        ensures { result ≡ layer_of self }
    {
        match self {
            Reason::BytesEnd | Reason::BadToken | Reason::TooDeep | Reason::IntegerRange =>
                Layer::Token,
            Reason::KeyAgain | Reason::BadFrame | Reason::OutsideBody => Layer::Object,
            Reason::BadLine | Reason::BadTrailer => Layer::Section,
            Reason::NoHeader | Reason::NoTail | Reason::ChainRule | Reason::FileBound =>
                Layer::Chain,
            Reason::StoreLength | Reason::NoSpace | Reason::CutPastEnd => Layer::Store,
            _ => Layer::Book,
        }
    }

    fn words(self) -> &'static str
        ensures { result.now ≡ (rule_of self).words }
    {
        match self {
            Reason::NoHeader => "the file does not begin with a PDF 1.0 to 1.7 header",
            Reason::NoTail => "the file does not end with a startxref tail",
            Reason::BytesEnd => "the bytes end where more is needed",
            Reason::BadToken => "a token is ill-formed or misplaced",
            Reason::TooDeep => "brackets nest too deep",
            Reason::IntegerRange => "an integer is out of range",
            Reason::KeyAgain => "a dictionary has a key twice",
            Reason::BadFrame => "an object's or a stream's frame is broken",
            Reason::BadLine => "a line or an entry of a section is ill-formed",
            Reason::BadTrailer => "a trailer entry is missing, unwanted or of the wrong kind",
            Reason::ChainRule => "a rule of the chain or of the table is broken",
            Reason::FileBound => "the file, its revisions or an object number pass the bound",
            Reason::OutsideBody => "bytes stand before or behind the body",
            Reason::ShortBuffer => "the buffer is too short",
            Reason::StoreLength => "the bytes are too many for the store",
            Reason::BookShut => "the book is shut",
            Reason::OpenAlready => "the book is open already",
            Reason::UpdateOpen => "an update is open",
            Reason::NoUpdate => "no update is open",
            Reason::SlipSpent => "the slip is spent",
            Reason::NoRevision => "there is no such revision",
            Reason::NotInUse => "the object number is not in use",
            Reason::CannotPut => "the object number cannot be put",
            Reason::RootNumber => "the root object cannot be removed",
            Reason::ChangedAlready => "the update has changed this object number already",
            Reason::UpdateFull => "the update is full",
            Reason::NoChanges => "the update holds no changes",
            Reason::PastLimits => "the update would pass the limits of the file",
            Reason::NoSpace => "the store has too little space",
            Reason::CutPastEnd => "the cut lies past the end of the store",
        }
    }
}

// For each type of words again: a foreign trait cannot be implemented for all types that have words.
impl fmt::Display for Reason {
    ghost output = { λ r. Some (rule_of r).words };

    fn fmt<W: fmt::Write>(&self, f: &mut fmt::Formatter<W>) -> fmt::Result {
        let words = self.words();
        write!(f, "{words}")
    }
}
