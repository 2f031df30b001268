//! Accepted reports behind a record file, and the list of turns that were made.
//!
//! Each call gets its turn and a receipt, and a report is accepted only where its record is in the file. So what the turns say was
//! accepted a crash leaves, at every moment, beside at most the one report that is under way.
#![tactic(auto)]

mod answering;
mod desk;
mod fault;
mod laws;
mod opening;
mod placing;
mod renewing;
mod reply_pair;
mod returning;
mod turn;

pub use desk::Desk;
pub use fault::DeskFault;
pub use laws::{files_open_to_one, other_epochs_change_nothing};
pub use turn::{Receipt, Turn, TurnFault};
