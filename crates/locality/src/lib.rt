// What a reader took decides what it answers; the bytes behind do not matter, as far as they do not lengthen what was taken.
#![tactic(auto)]

pub mod reading;

ghost use Rattle.locality.specs.Locality.{TokensAreLocal};

// A token that stands at a place stands there before any other bytes that do not lengthen it, and from any other place.
pub fn tokens_are_local()
    ensures { TokensAreLocal }
{}
