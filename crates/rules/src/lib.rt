// Opening in the format's own words: a file is accepted as its revisions exactly when all the rules hold of the file and them.
#![tactic(auto)]

ghost use Rattle.rules.specs.Examples.{WorkedRules};
ghost use Rattle.rules.specs.Stated.{AcceptsByRules, DecidesEveryFile, RefusesFirstBreach};

// A file opens as these revisions exactly when the rules hold.
pub fn rules_decide_opening()
    ensures { AcceptsByRules }
{}

// It is refused with a fault exactly when that is the fault of the first check that fails.
pub fn first_breach_is_the_fault()
    ensures { RefusesFirstBreach }
{}

// Every file keeps the rules, with one history, or has a first breach, with one fault; and not both.
pub fn every_file_is_decided()
    ensures { DecidesEveryFile }
{}

// The worked file keeps the rules; with a wrong generation of Root, that is its first breach.
pub fn worked_file_keeps_the_rules()
    ensures { WorkedRules }
{}
