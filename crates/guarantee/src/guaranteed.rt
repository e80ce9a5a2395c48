// What is guaranteed of every story, over any two quorum systems that show the laws.
ghost use Rattle.guarantee.specs.Endings.{OperationsEndWhenComplete};
ghost use Rattle.guarantee.specs.Guarantee.{EveryStory};
ghost use Rattle.guarantee.specs.Leases.{LeasesRunOut};

// The read guarantee, whole.
pub fn every_story_stands()
    ensures { EveryStory }
{}

// No lease outlives the input server's own count of it.
pub fn leases_run_out()
    ensures { LeasesRunOut }
{}

// An operation ends with the delivery that completes its quorums: no earlier, no later, and once.
pub fn operations_end_when_complete()
    ensures { OperationsEndWhenComplete }
{}
