//! Scripts: the steps of a world of processes as lines of text, and driving a world by them.
//!
//! A line is one step or one settlement, and each of these has one line. A script is its lines, each with an LF at its end; what stands behind the
//! last LF is ignored.
#![tactic(auto)]

mod driving;
mod end;
mod naming;
mod printing;
mod reading;
mod settle_lines;

pub use driving::{
    a_script_without_settlements_prints_the_reports, a_settlement_for_known_processes_is_taken,
    cut_line, drive,
};
pub use end::{Cause, End};
pub use naming::line_for;
pub use reading::{a_line_has_one_step, read_root, read_step};
pub use settle_lines::read_settle;
