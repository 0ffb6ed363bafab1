// Theorems about scripts, each on the contract of a function.
ghost use Rattle.scripts.specs.Examples.{Examples};
ghost use Rattle.scripts.specs.Theorems.{PrintedReadsBack, ReadsAgain};

// What is printed of an update is read as that update.
pub fn printed_reads_back()
    ensures { PrintedReadsBack }
{}

// What a script is read as, printed, is read as that again.
pub fn reads_again()
    ensures { ReadsAgain }
{}

// What the definitions make of small scripts.
pub fn scripts_read_as_meant()
    ensures { Examples }
{}
