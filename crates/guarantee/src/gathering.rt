// What answers leave of an operation, by the rules alone. Each statement is a definition of
// specs/Gathering.antt; the functions only carry them.
ghost use Rattle.guarantee.specs.Gathering.{ClockTwiceIsOnce, NamedTwiceIsOnce, PairTwiceIsOnce, ClocksInAnyOrder, NamedInAnyOrder, PairsInAnyOrder, UnequalPairsInAnyOrder, ClockStaysKnown, WrittenStaysWritten, ReadStaysRead, VersionIsNext, VersionAboveClocks, VersionAboveVersions};

// An answer that comes again changes nothing more.
pub fn repeats_change_nothing()
    ensures clock { ClockTwiceIsOnce }
    ensures named { NamedTwiceIsOnce }
    ensures pair { PairTwiceIsOnce }
{}

// Nor does it matter which of two answers comes first.
pub fn order_does_not_matter()
    ensures clocks { ClocksInAnyOrder }
    ensures named { NamedInAnyOrder }
    ensures pairs { PairsInAnyOrder }
    ensures unequal { UnequalPairsInAnyOrder }
{}

// A quorum that is complete stays complete.
pub fn quorums_stay()
    ensures clock { ClockStaysKnown }
    ensures written { WrittenStaysWritten }
    ensures read { ReadStaysRead }
{}

// A write's version is above every clock that it gathered.
pub fn versions_are_above()
    ensures next { VersionIsNext }
    ensures clocks { VersionAboveClocks }
    ensures versions { VersionAboveVersions }
{}
