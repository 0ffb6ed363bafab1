// What is owed of the files that runs leave.
ghost use Rattle.keeping.specs.Delivering.{EveryRunDelivers, AnyTwoCompare};

// The file that a run leaves has the bytes, the revisions and the objects that its account says.
pub fn every_run_delivers()
    ensures { EveryRunDelivers }
{}

// Files from the same bytes that keep equally many revisions are equal exactly when they hold the same updates.
pub fn any_two_compare()
    ensures { AnyTwoCompare }
{}
