// The theorems on the definitions that the readers rest on.
ghost use Rattle.objects.specs.Theorems.{Skips, Finds, Lists, Shifted, FaultsLieWithin};

// A reader that does not check keys goes on where the one that does goes on.
pub fn skipping_agrees()
    ensures { Skips }
{}

// A walk over the entries of a dictionary finds what its tree has.
pub fn walks_find()
    ensures { Finds }
{}

// The entries of a dictionary, one by one, are those of its tree.
pub fn entries_are_listed()
    ensures { Lists }
{}

// A frame is the same where every place is later by as much.
pub fn places_shift()
    ensures { Shifted }
{}

// The place of a fault is one of the bytes that were given, or their end.
pub fn faults_lie_within()
    ensures { FaultsLieWithin }
{}
