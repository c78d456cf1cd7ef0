//! What follows from the rules of breakpoints and stops.
ghost use Rattle.pt_bdb.specs.Laws.{BrokenStays, FalseCounts, IsLeast, NextReturns, NowhereStops};
ghost use Rattle.pt_bdb.specs.Laws.{OthersStay, UntilGoesOn};

/// Who has no turn stays, a false condition counts a hit, one that can't be judged keeps a temporary
/// breakpoint, and the least number of those that would stop does.
pub fn breakpoints_have_their_turns()
    ensures others { OthersStay }
    ensures false_counts { FalseCounts }
    ensures broken { BrokenStays }
    ensures least { IsLeast }
{}

/// Where commands stop the run, and where they don't.
pub fn commands_stop_where_they_say()
    ensures nowhere { NowhereStops }
    ensures until { UntilGoesOn }
    ensures next { NextReturns }
{}
