// What schemes and banks may be.
ghost use Rattle.worked.specs.Limits.{Banks, Limits};

pub fn limits_stand()
    ensures { Limits }
{}

pub fn banks_stand()
    ensures { Banks }
{}
