// What a binder's calls answer at the edges of its refusals.
ghost use Rattle.worked.specs.Called.{Bound, Fetched, Opening, Weighed};

pub fn openings_stand()
    ensures { Opening }
{}

pub fn binds_stand()
    ensures { Bound }
{}

pub fn fetches_stand()
    ensures { Fetched }
{}

pub fn weighings_stand()
    ensures { Weighed }
{}
