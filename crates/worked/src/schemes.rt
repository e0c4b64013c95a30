// The schemes that the cases compete with.
ghost use Rattle.worked.specs.Schemes.{SchemesKeep};

pub fn schemes_keep()
    ensures { SchemesKeep }
{}
