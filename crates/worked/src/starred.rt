// Small columns with the house bank and the trial bank.
ghost use Rattle.worked.specs.Starred.{Starred};

pub fn starred_cases_stand()
    ensures { Starred }
{}
