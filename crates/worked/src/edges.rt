// The numbers of the definitions, on both sides of each edge.
ghost use Rattle.worked.specs.Edges.{Drawn, Kinds, Nodes, Sizes, TurnedAway};

pub fn sizes_stand()
    ensures { Sizes }
{}

pub fn kinds_stand()
    ensures { Kinds }
{}

pub fn refusals_stand()
    ensures { TurnedAway }
{}

pub fn draws_stand()
    ensures { Drawn }
{}

pub fn nodes_stand()
    ensures { Nodes }
{}
