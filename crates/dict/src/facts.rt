// Worked facts.
ghost use Rattle.dict.specs.Cases.{Cases};

// What the definitions say on both sides of each edge.
pub fn cases_stand()
    ensures { Cases }
{}
