//! A desk that threads share. Each call makes one turn under one lock, and passes keep what was answered.
//!
//! A ledger counts the turns: its book lies under the lock, and each pass has a share of it. At the end the turns are held
//! against the entries of the passes, and each shown line against what was accepted at its turn.
#![tactic(auto)]

mod auditing;
mod coordinator;
mod entry;
mod equal;
mod fault;
mod found;
mod line;
mod locked;
mod marking;
mod pass;
mod progress;
mod replaying;
mod shown_lines;

pub use auditing::audit;
pub use coordinator::{Coordinator, Ended, Gate, OpenGate, Refused, Remainder, Unclosed};
pub use entry::Entry;
pub use fault::{CallFault, CloseFault, PassFault};
pub use line::threads_for;
pub use pass::Pass;
pub use progress::Progress;
