// What a refusal means to a person, and what to do about it.
ghost use Rattle.std.specs.Prelude.{◌≡◌};
ghost use Rattle.reports.specs.Advice.{advice_of};

use faults::reason::Reason;

// A sentence for each reason; the fault itself has the terse words.
pub fn advice(reason: Reason) -> &'static str
    ensures { result.now ≡ advice_of reason }
{
    match reason {
        Reason::NoHeader => {
            "This is no PDF file of versions 1.0 to 1.7: it has to begin with %PDF-1. and a digit from 0 to 7."
        }
        Reason::NoTail => {
            "The file has to end with startxref, the place of its last section and %%EOF; it may have been cut short, or something was added behind it."
        }
        Reason::BytesEnd => {
            "The file breaks off in the middle of something; it may have been cut short, or a place that it names lies too far back."
        }
        Reason::BadToken => {
            "Something stands here that cannot be read as PDF, or that does not belong here."
        }
        Reason::TooDeep => {
            "Arrays, dictionaries or the brackets of a text may lie 32 deep in one another at most."
        }
        Reason::IntegerRange => "Whole numbers go from -2147483648 to 2147483647.",
        Reason::KeyAgain => "A dictionary may have each of its keys once only.",
        Reason::BadFrame => {
            "An object has to be written as its number, its generation, obj, its contents and endobj, and a stream needs its right Length."
        }
        Reason::BadLine => {
            "The cross-reference section is not written line by line as it should be; cross-reference streams are not read."
        }
        Reason::BadTrailer => {
            "The trailer needs Size and Root, may have Prev, and must not have Encrypt or XRefStm."
        }
        Reason::ChainRule => {
            "The revisions do not fit together: a section, an entry of its table, Size, Root or an object contradicts what stands before."
        }
        Reason::FileBound => {
            "A record has at most 9,999,999 bytes, 64 revisions and object numbers up to 999."
        }
        Reason::OutsideBody => {
            "A body has to begin and end with the object itself, with nothing before or behind it."
        }
        Reason::ShortBuffer => "The object is larger than the memory that was set aside for it.",
        Reason::StoreLength => "The file is larger than a record may be: 9,999,999 bytes.",
        Reason::BookShut => "The record has to be opened first.",
        Reason::OpenAlready => "The record is open already.",
        Reason::UpdateOpen => "An update is open: commit it or abandon it first.",
        Reason::NoUpdate => "No update is open: begin one first.",
        Reason::SlipSpent => "This update has been committed or abandoned already.",
        Reason::NoRevision => {
            "Revisions count from 1, the oldest; the list command shows how many there are."
        }
        Reason::NotInUse => {
            "The revision has no object of this number; the list command shows what each revision added and withdrew."
        }
        Reason::CannotPut => {
            "Only a number that is in use, one that can be used again, or the next new one can be put."
        }
        Reason::RootNumber => {
            "The root object holds the document together, so it can be changed but not removed."
        }
        Reason::ChangedAlready => "An update changes each object once at most.",
        Reason::UpdateFull => "An update has at most 32 changes and 16,384 bytes of bodies.",
        Reason::NoChanges => "An update has to change something before it is committed.",
        Reason::PastLimits => {
            "The update would take the record past 64 revisions, 999 as its highest number, 9,999,999 bytes, or 32,768 bytes of section."
        }
        Reason::NoSpace => "There is no room left for what is to be added.",
        Reason::CutPastEnd => "Nothing lies there to be cut off.",
    }
}
