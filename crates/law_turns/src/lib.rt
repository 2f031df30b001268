//! Turns with settlements among them, over processes that obey the rules: each line is right for the current history.
//!
//! A trace has the steps of processes and the turns of calls with their replies, in order. Of the turns is said what they are, of the
//! processes what is asked of them; of a settlement nothing is asked but its turn.
//! These are laws of definitions: `chains` and `propagate` make the turns.
#![tactic(auto)]

ghost use Rattle.law_turns.specs.Example.{ItsLastReportCanBeNext, ItsRunIsOnceSettled, SettledOnceIsInOrder, SettledOnceIsRight, SettledOnceIsTaken};
ghost use Rattle.law_turns.specs.InOrder.{AllStaysOfNow, InOrderFromNothing, InOrderIsObeyed, KeptHandsOverTheSettled, NextIsAccepted, OrderIsKept, OtherEpochsAreSetAside, SettlementKeepsOrder};
ghost use Rattle.law_turns.specs.Obeyed.{FromNothing, HeadlineOfTurns, NoLineIsBelowEarlierGarbage, ProcessesObeyInParts, TheRunIsObeyed, TheRunIsOne, TurnsAlone, TurnsInParts, TurnsMakeARun, WhoIsGoneWasUnbornThen};

/// Turns make a run that is obeyed, with the accepted list and the epoch that are held then; and the headline over them.
pub fn turns_make_an_obeyed_run()
    ensures possible { TurnsMakeARun }
    ensures obeyed { TheRunIsObeyed }
    ensures one { TheRunIsOne }
    ensures from_nothing { FromNothing }
    ensures headline { HeadlineOfTurns }
{}

/// What is held behind a trace is told by its turns alone; and what is said of a trace holds in each part of it.
pub fn a_trace_has_parts()
    ensures alone { TurnsAlone }
    ensures turns { TurnsInParts }
    ensures processes { ProcessesObeyInParts }
{}

/// No line is below an earlier garbage line, whatever was made and which turns were taken between them.
pub fn no_line_is_below_earlier_garbage()
    ensures below { NoLineIsBelowEarlierGarbage }
    ensures gone { WhoIsGoneWasUnbornThen }
{}

/// The reports of a lawful history are accepted behind settlements, too: what a settlement keeps of the history hands over what it keeps of
/// the list; so where the accepted ones came next, they stay in order, what is left is of the present epoch, and the next one is refused
/// for room alone.
pub fn lawful_reports_are_accepted_behind_settlements()
    ensures kept { KeptHandsOverTheSettled }
    ensures settled { SettlementKeepsOrder }
    ensures order { OrderIsKept }
    ensures of_now { AllStaysOfNow }
    ensures obeyed { InOrderIsObeyed }
    ensures from_nothing { InOrderFromNothing }
    ensures next { NextIsAccepted }
    ensures set_aside { OtherEpochsAreSetAside }
{}

/// A trace with a settlement among its turns is as the laws ask for; what is held then and its run are written out.
pub fn a_settlement_written_out()
    ensures turns { SettledOnceIsTaken }
    ensures processes { SettledOnceIsRight }
    ensures run { ItsRunIsOnceSettled }
    ensures in_order { SettledOnceIsInOrder }
    ensures can_be_next { ItsLastReportCanBeNext }
{}
