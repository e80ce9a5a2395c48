ghost use Rattle.guarantee.specs.Alive.{Alive};

// The rules do something: in four stories operations begin and end as said there.
pub fn stories_end()
    ensures { Alive }
{}
