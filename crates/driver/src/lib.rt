//! A world of processes that stamp their steps by the rules of interval tree clocks, and its reports. It settles on a line: all
//! processes return to it, and what is behind it is undone.
#![tactic(auto)]

ghost use Rattle.driver.specs.GreatestLines.{GreatestLineIsClosed, RecoveryLineIsTaken, SettlementKeepsReports};

mod beginning;
mod fault;
mod keeping;
mod line;
mod line_events;
mod mark;
mod process_status;
mod proof_facts;
mod rebuild;
mod recording;
mod settling;
mod step;
mod steps;
mod tables;
mod world;

pub use fault::StepFault;
pub use line::NamedPosition;
pub use step::{Step, StepRequest};
pub use world::World;

/// The line that is answered for the reports of a world, by names, is one that it returns to.
pub fn a_greatest_line_is_closed()
    ensures { GreatestLineIsClosed }
{}

/// The line of just the known processes in order of birth, each at its position in the answered line, is taken, want of memory aside.
pub fn a_recovery_line_is_taken()
    ensures { RecoveryLineIsTaken }
{}

/// What a world reported once it settled is what the line keeps of what it reported before.
pub fn a_settlement_keeps_reports()
    ensures { SettlementKeepsReports }
{}
