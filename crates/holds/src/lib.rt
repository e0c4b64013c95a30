// What every node is that the levels make, and what they refuse a column for.
#![tactic(auto)]

ghost use Rattle.holds.specs.Holding.{LevelsHold, SchemesHold};
ghost use Rattle.holds.specs.Refusing.{LevelsRefuse, LevelsTake};

// A node of the levels holds its column, is no heavier than plain and fits its bytes.
pub fn levels_hold()
    ensures { LevelsHold }
{}

// A node of a scheme of the bank holds its column and fits its bytes.
pub fn schemes_hold()
    ensures { SchemesHold }
{}

// The levels refuse a column only for a scheme that refuses its parts.
pub fn levels_refuse()
    ensures { LevelsRefuse }
{}

// A bank whose schemes refuse nothing binds every column.
pub fn levels_take()
    ensures { LevelsTake }
{}
