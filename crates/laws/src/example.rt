// The law on an example.
ghost use Rattle.laws.specs.WorkedRun.{WorkedRun};

// The worked file is changed, withdrawn from, changed again and gone back: a run of the law, with its conclusion.
pub fn worked_file_is_a_run()
    ensures { WorkedRun }
{}
