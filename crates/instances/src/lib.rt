// The banks and draws that the binder is used with are instances of what is proved over all of them.
#![tactic(auto)]

ghost use Rattle.instances.specs.Edges.{Edges};
ghost use Rattle.instances.specs.Settings.{AllUsed, TakesAll};
ghost use Rattle.instances.specs.Witness.{Witness};

// Both banks, with either source of draws and up to 8 levels, are settings that are not refused.
pub fn settings_are_granted()
    ensures { AllUsed }
{}

// The house bank refuses no column.
pub fn house_takes_all()
    ensures { TakesAll }
{}

// Seven calls from a new binder are a run.
pub fn a_run_of_seven_calls()
    ensures { Witness }
{}

// The refusals of an opening and of the calls, on both sides of each edge.
pub fn edges_stand()
    ensures { Edges }
{}
