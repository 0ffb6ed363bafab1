// Runs of a book, one call after the other.
ghost use Rattle.keeping.specs.Driving.{EventsGrow, RunsGrow, SlipsWaitForUpdates};

// The answer to the next call goes behind the answers so far.
pub fn events_grow()
    ensures { EventsGrow }
{}

// A run goes on with each step.
pub fn runs_grow()
    ensures { RunsGrow }
{}

// While no update is open, it makes no difference whether the slip shown is spent.
pub fn slips_wait_for_updates()
    ensures { SlipsWaitForUpdates }
{}
