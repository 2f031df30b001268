//! What the stamps of accepted reports say of every lawful history that agrees with them.
//!
//! Each place of an accepted list has its event; what a place knows is what is in the past of its event; so a cut is closed
//! exactly where it is stamp-consistent, and the line that is answered is the greatest closed cut of the history.

ghost use Rattle.std.specs.Prelude.{ℕ, List};
ghost use Rattle.report_line.specs.declared.report.Report.{Report};
ghost use Rattle.chains.specs.declared.position.Position.{Position};
ghost use Rattle.chains.specs.Folded.{IsFolded};
ghost use Rattle.chains.specs.Greatest.{IsGreatestCut};
ghost use Rattle.law_histories.specs.Example.{a, every_step};
ghost use Rattle.law_lines.specs.Places.{IsPremise};
ghost use Rattle.law_lines.specs.Example.{accepted_reports};
ghost use Rattle.law_lines.specs.Headline.{IsLineOfHistories};
ghost use Rattle.law_lines.specs.TheLaw.{ClosedIsConsistent, EachElementHasItsEvent, EachElementIsReported, EachPlaceHasOneEvent, EachRetirementHasItsEvent, ElementsAreInOrder, FrontsAgree, GarbageLineNeverFalls, GreatestIsGreatestClosed, ReportsOfStepsAgree, TheLaw};

/// Each place of an accepted list has one event in every lawful history that agrees.
pub fn places_have_events()
    ensures element { EachElementHasItsEvent }
    ensures retirement { EachRetirementHasItsEvent }
    ensures one { EachPlaceHasOneEvent }
    ensures in_order { ElementsAreInOrder }
    ensures reported { EachElementIsReported }
{}

/// The law: what a place knows is what is in its past.
pub fn knowledge_is_the_past()
    ensures { TheLaw }
{}

/// A cut is closed exactly where it is stamp-consistent, and so the greatest cut of the one kind is that of the other, in
/// every lawful history that agrees.
pub fn closed_is_consistent()
    ensures equivalent { ClosedIsConsistent }
    ensures greatest { GreatestIsGreatestClosed }
    ensures line { (accepted : List Report) (failed : List ℕ) (line : List Position) → IsFolded accepted → IsGreatestCut accepted failed line → IsLineOfHistories accepted failed line }
{}

/// Accepted reports agree with the history whose steps they are of, and so does each front of a list that agrees.
pub fn reports_of_steps_agree()
    ensures all { ReportsOfStepsAgree }
    ensures front { FrontsAgree }
{}

/// The line with every process failed is at or before each line of each longer list that agrees with a lawful history.
pub fn garbage_line_never_falls()
    ensures { GarbageLineNeverFalls }
{}

/// There is a lawful history with every kind of step, and an accepted list with every kind of report that agrees with it.
pub fn the_premise_is_possible()
    ensures { IsPremise a every_step accepted_reports }
{}
