//! Whoever takes its steps by the calls of `process` has what the headline asks of processes.
//!
//! An account tells which calls processes made and which turns the coordinator took, in order. What goes from one process to another is
//! handed over as it was given out, each start and each retirement once, or, behind a settlement, a message of the current history once more; and a
//! process goes on from its newest state, or, where it returns, from what it was at its position. Then the steps obey the rules. These are laws of
//! definitions. That each call does what an account says of it is proved of the calls themselves (`accounted`).
#![tactic(auto)]

ghost use Rattle.law_process.specs.Obeying.{StepsOfCallsObey, StepsOfCallsAreLawful};
ghost use Rattle.law_process.specs.EachCall.{EachCallIsAllowed, HandedOverIsSent};
ghost use Rattle.law_process.specs.Example.{AFamilyIsPossible, AReturnIsPossible, AKeptRetirementIsPossible};

mod accounted;

pub use accounted::{
    absorb, absorb_kept, again, begin, check, fork, fork_small, present, receive, retire,
    return_to, returned, root, send, work,
};

/// The steps of processes that call, with the turns between them, are those of processes that obey.
pub fn steps_of_calls_obey()
    ensures { StepsOfCallsObey }
{}

/// Where nothing was settled, they are a lawful history, and the lines that were given are its reports.
pub fn steps_of_calls_are_lawful()
    ensures { StepsOfCallsAreLawful }
{}

/// The step of each call is allowed over any history in which its process lives, and that has what the call takes and names; its line is
/// that of the report, and the process lives on as the call left it. What is handed over once more was sent as before.
pub fn each_call_is_allowed()
    ensures allowed { EachCallIsAllowed }
    ensures again { HandedOverIsSent }
{}

/// There is an account with every kind of call but a return; one with turns, a settlement and a return; and one with a retirement and a message
/// that a settlement kept: the one is absorbed then, and the other is handed over once more, with the new epoch, and received.
pub fn a_family_is_possible()
    ensures family { AFamilyIsPossible }
    ensures returned { AReturnIsPossible }
    ensures kept { AKeptRetirementIsPossible }
{}
