//! How the drawing of a script ended.

use report_line::Name;
use script::Cause;

/// How the drawing of a script ended.
#[derive(Drop)]
pub enum Ending {
    /// Each step was taken, and is in the picture.
    Done,
    /// The step of the line of this number, counted from 1, was refused. Those before it are in the picture.
    Refused { step: u64, cause: Cause },
    /// The report of the step of this line is more than are accepted. The steps before it are in the picture.
    Full { step: u64 },
    /// No process has this name, the first such of those that are to have failed. There is no picture.
    Unknown(Name),
    /// Memory did not suffice. There is no picture.
    Memory,
}
