// Which schemes may compete, and what they are asked with.
ghost use Rattle.worked.specs.Excluding.{Asked, House, Pulls, Pushes};

pub fn house_excludes()
    ensures { House }
{}

pub fn pushes_stand()
    ensures { Pushes }
{}

pub fn pulls_stand()
    ensures { Pulls }
{}

pub fn asking_stands()
    ensures { Asked }
{}
