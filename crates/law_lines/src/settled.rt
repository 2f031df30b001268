//! What a settlement on a line keeps of an accepted list, and the headline after any number of settlements.
//!
//! `BEGIN` is kept, and each report at or before the line in its process. What is kept is folded, has just the elements up to
//! the line, and agrees with what is kept of the history. So the greatest stamp-consistent cut of what is accepted is the greatest
//! closed cut of the current history, as it is without settlements.
//! These are laws of definitions: `propagate` makes a settlement.

ghost use Rattle.law_lines.specs.Agreeing.{EachLineHasEvents, SettledAgrees};
ghost use Rattle.law_lines.specs.Settled.{SettledElements, SettledIsFolded, SettledKnown, SettledRetired};
ghost use Rattle.law_lines.specs.SettledExample.{AllIsKept, OnlyBeginIsKept, OpenDoesNotFold};
ghost use Rattle.law_lines.specs.Garbage.{NoLineIsBelowGarbage, NoLineIsBelowSafe, SafeCutsGrow, SafeCutsStay, WhoIsGoneWasUnborn};
ghost use Rattle.law_lines.specs.Returned.{EachReturnsToItsPosition};
ghost use Rattle.law_lines.specs.Runs.{CurrentAgrees, HeadlineHolds, RunsAreLogs, SettlementIsPossible};
ghost use Rattle.law_lines.specs.TwoSettlements.{CheckpointsAreAccepted, CheckpointsAreCurrent, TwiceSettledIsObeyed};

/// What a stamp-consistent cut keeps of a folded list is folded.
pub fn settled_is_folded()
    ensures { SettledIsFolded }
{}

/// What the greatest cut keeps has, of each process, the elements up to its position, with their numbers; just those are known
/// in it that the line does not leave unborn, and just those are retired that it leaves retired.
pub fn settled_elements()
    ensures elements { SettledElements }
    ensures known { SettledKnown }
    ensures retired { SettledRetired }
{}

/// What is kept of an accepted list agrees with what is kept of the history.
pub fn settled_agrees()
    ensures events { EachLineHasEvents }
    ensures kept { SettledAgrees }
{}

/// After a settlement each process is at its position in the line: it has no event, or is at its element, or retired.
pub fn each_returns_to_its_position()
    ensures { EachReturnsToItsPosition }
{}

/// The headline after any steps, reports and settlements.
pub fn headline_after_settlements()
    ensures premise { CurrentAgrees }
    ensures headline { HeadlineHolds }
    ensures possible { SettlementIsPossible }
{}

/// Settled lists that are written out, and that one of a cut that is not stamp-consistent does not fold.
pub fn settled_lists_written_out()
    ensures all { AllIsKept }
    ensures none { OnlyBeginIsKept }
    ensures open { OpenDoesNotFold }
{}

/// The steps and settlements of a run are what the laws of current histories are about.
pub fn a_run_is_a_log()
    ensures { RunsAreLogs }
{}

/// A run with two settlements is as the laws of runs ask for; what is current after it is written out.
pub fn two_settlements_written_out()
    ensures obeyed { TwiceSettledIsObeyed }
    ensures history { CheckpointsAreCurrent }
    ensures reports { CheckpointsAreAccepted }
{}

/// A cut that survives whoever fails is at or before each line, and stays such a cut through a settlement on any line, and as
/// reports are accepted.
pub fn safe_cuts_stay()
    ensures below { NoLineIsBelowSafe }
    ensures stays { SafeCutsStay }
    ensures grows { SafeCutsGrow }
{}

/// No line is below an earlier garbage line, whatever was made, accepted and settled between them.
pub fn no_line_is_below_garbage()
    ensures below { NoLineIsBelowGarbage }
    ensures gone { WhoIsGoneWasUnborn }
{}
