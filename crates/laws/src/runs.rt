// The law over whole runs.
ghost use Rattle.format.specs.Law.{Law};

// Every run keeps each revision as its account says, and equal files hold equal updates.
pub fn every_run_keeps_revisions()
    ensures { Law }
{}
