// Worked facts.
ghost use Rattle.stern.specs.Cases.{Cases};

// What the definitions say on both sides of each edge.
pub fn cases_stand()
    ensures { Cases }
{}
