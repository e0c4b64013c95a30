// What the definitions give on worked cases.
ghost use Rattle.stats.specs.Cases.{Cases};

// The worked cases, from the definitions.
fn cases_stand()
    ensures { Cases }
{}
