//! Histories of processes, and what holds of every lawful one.
//!
//! The definitions of a history, its events and its edges stand with the lines, in `report_line`. Here are their laws: what
//! the values of an event say of the events in its past, and that the rules for steps are what they seem to be.

ghost use Rattle.law_histories.specs.Law.{BeyondBirthIsSomeInPast, BeyondIsLaterInPast, BothEndsOccur, EachPointHasOneHolder, NothingFollowsRetirement, OwnEventsAreInOrder, OwnersLieOnOnePath, ValuesNeverFall};
ghost use Rattle.law_histories.specs.Rules.{LookUpsAreEvents, RulesAreTheLaw};
ghost use Rattle.law_histories.specs.Example.{a, every_step};
ghost use Rattle.law_histories.specs.JoinFirst.{JoinsFirstToThree, ThreeIsNotLawful};
ghost use Rattle.report_line.specs.histories.History.{Name, History};
ghost use Rattle.report_line.specs.histories.Lawful.{IsLawful};

/// What an event's values say of the events in its past, in every lawful history.
pub fn beyond_is_later_in_past()
    ensures later { BeyondIsLaterInPast }
    ensures birth { BeyondBirthIsSomeInPast }
{}

/// What every lawful history keeps: both ends of an edge occur, one process's events are in order, values never fall along
/// edges, each point has one holder, the events whose process owns it lie on one path, and no event of a process follows its
/// retirement.
pub fn order_of_events()
    ensures ends { BothEndsOccur }
    ensures own { OwnEventsAreInOrder }
    ensures rising { ValuesNeverFall }
    ensures holder { EachPointHasOneHolder }
    ensures path { OwnersLieOnOnePath }
    ensures retirement { NothingFollowsRetirement }
{}

/// The rules for steps, said of the events that occurred, are those that look up how processes stand.
pub fn rules_are_the_law()
    ensures { RulesAreTheLaw }
{}

/// How processes stand and what messages carry, as it is looked up in a lawful history, is what its events tell.
pub fn look_ups_are_events()
    ensures { (root : Name) (h : History) → IsLawful root h → LookUpsAreEvents root h }
{}

/// There is a lawful history with every kind of step.
pub fn every_step_is_possible()
    ensures { IsLawful a every_step }
{}

/// Who absorbs by the join first, and then an event on everything that it owns by then, may raise nothing that it owned before:
/// no lawful absorption ends with these values.
pub fn joining_first_is_not_lawful()
    ensures joined { JoinsFirstToThree }
    ensures unlawful { ThreeIsNotLawful }
{}
