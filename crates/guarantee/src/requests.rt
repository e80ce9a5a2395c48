// What is proved of an output server that gets a read request, and of an input server that gets a
// renewal request. Each statement is a definition of specs/ReadRequests.antt or
// specs/RenewalRequests.antt; the functions only carry them.
ghost use Rattle.guarantee.specs.ReadRequests.{AnswersIfItMay, AnswersOnceWithNewest, OnlyOthersAreAsked, AllOthersAreAsked, AskedInRisingOrder, SomeoneIsAsked, GotIsAlwaysCovered, ReadRequestsAlterNothing};
ghost use Rattle.guarantee.specs.RenewalRequests.{RenewalIsAnswered, MostStaysInRenewal, LastReadIsGiven, LeaseEndIsGranted, RenewalsAlterOne};

// When a read is answered, and who is asked where it is not.
pub fn read_requests_ask()
    ensures when { AnswersIfItMay }
    ensures answer { AnswersOnceWithNewest }
    ensures only { OnlyOthersAreAsked }
    ensures all { AllOthersAreAsked }
    ensures rising { AskedInRisingOrder }
    ensures someone { SomeoneIsAsked }
    ensures covered { GotIsAlwaysCovered }
    ensures nothing_altered { ReadRequestsAlterNothing }
{}

// What a renewal is answered, and what it alters.
pub fn renewal_requests_grant()
    ensures answered { RenewalIsAnswered }
    ensures stays { MostStaysInRenewal }
    ensures last_read { LastReadIsGiven }
    ensures lease_end { LeaseEndIsGranted }
    ensures others { RenewalsAlterOne }
{}
