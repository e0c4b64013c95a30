// Which scheme wins, and which verdicts never count.
ghost use Rattle.worked.specs.Choosing.{Counting, Ended, Marked, Ties};

pub fn ties_stand()
    ensures { Ties }
{}

pub fn counting_stands()
    ensures { Counting }
{}

pub fn always_use_ends()
    ensures { Ended }
{}

pub fn marks_stand()
    ensures { Marked }
{}
