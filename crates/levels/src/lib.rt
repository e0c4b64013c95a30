// The choice among schemes, and the levels that bind a column.
#![tactic(auto)]

ghost use Rattle.levels.specs.Standing.{LevelsStand, OneStands, ScoresStand};

// What the levels make stands, by the rule in the subject's words.
pub fn levels_stand()
    ensures { LevelsStand }
{}

// No other node stands for a column that is bound.
pub fn one_stands()
    ensures { OneStands }
{}

// A Sample's score is that of nodes that stand, by the same rule.
pub fn scores_stand()
    ensures { ScoresStand }
{}
