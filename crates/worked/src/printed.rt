// A column bound as a dictionary, byte by byte, and a column that is turned away.
ghost use Rattle.worked.specs.Printed.{Printed, TurnedAway};

pub fn printed_stands()
    ensures { Printed }
{}

pub fn outside_is_refused()
    ensures { TurnedAway }
{}
