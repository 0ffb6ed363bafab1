// Reading, said in the format's own words: what tokens and objects are, and that the reader accepts just those.
#![tactic(auto)]

ghost use Rattle.grammar.specs.Examples.{Examples};
ghost use Rattle.grammar.specs.Reading.{IndirectObjectsAreSpelled, ObjectsAreSpelled, StreamsAreSpelled, TokensAreSpelled};

// The reader answers just those tokens of which the bytes are made.
pub fn tokens_are_spelled()
    ensures { TokensAreSpelled }
{}

// The reader accepts just those objects that tokens spell, and tokens spell one object at most.
pub fn objects_are_spelled()
    ensures { ObjectsAreSpelled }
{}

// The reader of an object's body accepts just those objects and streams.
pub fn streams_are_spelled()
    ensures { StreamsAreSpelled }
{}

// The readers accept just those objects in the file, and just those bodies that are put.
pub fn indirect_objects_are_spelled()
    ensures { IndirectObjectsAreSpelled }
{}

// An example of each relation, and of what is not spelled.
pub fn examples_are_derived()
    ensures { Examples }
{}
