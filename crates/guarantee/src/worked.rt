ghost use Rattle.guarantee.specs.Worked.{Each, lines};

// The worked examples of the rules hold.
pub fn worked_lines_hold()
    ensures { Each lines }
{}
