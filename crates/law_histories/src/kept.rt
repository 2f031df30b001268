//! What a settlement keeps of a history, and the current history after any number of settlements.
//!
//! A settlement returns each process to its position in a line, and undoes what is behind it. A closed cut of a lawful history
//! keeps a lawful history, in which events and reports are what they were. These are laws of definitions.

ghost use Rattle.law_histories.specs.Kept.{EachEventIsKept, EachReportIsKept, KeptIsLawful, PositionIsNewest};
ghost use Rattle.law_histories.specs.OpenCut.{OpenCutIsRefused};
ghost use Rattle.law_histories.specs.Returns.{EpochsTellReturns};
ghost use Rattle.law_histories.specs.Settlements.{CurrentIsLawful};

/// What a closed cut keeps of a lawful history is a lawful history.
pub fn kept_is_lawful()
    ensures { KeptIsLawful }
{}

/// Events and reports of steps are kept as they were, but for the number of the event.
pub fn events_and_reports_are_kept()
    ensures events { EachEventIsKept }
    ensures reports { EachReportIsKept }
{}

/// In what is kept each process lives by its newest event in the cut.
pub fn position_is_newest()
    ensures { PositionIsNewest }
{}

/// After any steps and settlements the current history is lawful.
pub fn current_is_lawful()
    ensures { CurrentIsLawful }
{}

/// The epochs of steps tell which processes have returned.
pub fn epochs_tell_returns()
    ensures { EpochsTellReturns }
{}

/// A cut that is not closed may keep what is not lawful: a receive without its send.
pub fn open_cut_is_refused()
    ensures { OpenCutIsRefused }
{}
