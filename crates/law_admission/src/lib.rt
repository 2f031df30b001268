//! The reports of a lawful history are accepted, in order, while there is room.
//!
//! A client whose processes stamp their steps by the rules, and that hands over their reports in order behind the `BEGIN` of
//! their root, is never refused but for want of room or of memory: no other test of admission applies to its next report.
#![tactic(auto)]

mod handing;
mod laws;

pub use handing::{Refused, hand_over};
pub use laws::{lawful_reports_are_accepted, the_premises_are_possible};
