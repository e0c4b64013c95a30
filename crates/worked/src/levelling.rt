// What levels do with a column, a sample, a winner and a refusal.
ghost use Rattle.worked.specs.Levelling.{Depths, Lighter, Refused, Sampled};

pub fn depths_stand()
    ensures { Depths }
{}

pub fn lighter_stands()
    ensures { Lighter }
{}

pub fn samples_stand()
    ensures { Sampled }
{}

pub fn refusals_stand()
    ensures { Refused }
{}
