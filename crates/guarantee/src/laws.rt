// What is proved of every call and of the servers' steps, apart from any story. Each statement is a
// definition of specs/Bounds.antt or specs/Laws.antt; the functions only carry them.
ghost use Rattle.guarantee.specs.Bounds.{BoundsKept, EpochsFit};
ghost use Rattle.guarantee.specs.Laws.{RefusalsAlterNothing, EndedStaysEnded, LoggedStaysLogged, NothingFalls, LeasesStand, OnlyOthersAreTold, AllOthersAreTold, WriteIsAnswered, AnswerNamesShutOut, NamedIsShutOut, QueueingLeavesOthers, AcknowledgingLeavesOthers};

// The numbers of an open field stay within their bounds, whatever its log and table hold.
pub fn bounds_hold()
    ensures kept { BoundsKept }
    ensures epochs { EpochsFit }
{}

// What no call takes back.
pub fn calls_keep()
    ensures refusals { RefusalsAlterNothing }
    ensures operations { EndedStaysEnded }
    ensures messages { LoggedStaysLogged }
    ensures servers { NothingFalls }
    ensures leases { LeasesStand }
{}

// Whom a write tells, and whom it names as shut out.
pub fn writes_tell()
    ensures only { OnlyOthersAreTold }
    ensures all { AllOthersAreTold }
    ensures answered { WriteIsAnswered }
    ensures named { AnswerNamesShutOut }
    ensures members { NamedIsShutOut }
{}

// What concerns one output server leaves the others alone.
pub fn others_stay()
    ensures queueing { QueueingLeavesOthers }
    ensures acknowledging { AcknowledgingLeavesOthers }
{}
