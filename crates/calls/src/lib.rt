// What the calls of a binder answer and leave, and the law over every run of them.
#![tactic(auto)]

ghost use Rattle.calls.specs.Going.{BytesFix, RunsGoOn};
ghost use Rattle.calls.specs.Runs.{MainLaw};

pub mod answers;

// Every run of calls keeps the law.
pub fn every_run_is_lawful()
    ensures { MainLaw }
{}

// No two lists of columns are held in the same bytes.
pub fn bytes_fix_the_columns()
    ensures { BytesFix }
{}

// After every run every call can be answered by its contract.
pub fn every_run_goes_on()
    ensures { RunsGoOn }
{}
