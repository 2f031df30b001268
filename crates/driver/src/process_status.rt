//! What is kept of a process that was born.

use report_line::Name;
use stamp::Stamp;

/// How a process stands.
#[derive(Drop)]
pub(crate) enum ProcessStatus {
    /// It begins with this stamp, and made no step yet.
    Born { stamp: Stamp },
    /// It lives, made its last step at this place, and has so many reports.
    Lives { step: usize, reports: u32 },
    /// It retired into the target by the step at this place, and waits.
    Waits { step: usize, target: Name },
    /// It retired and was absorbed.
    Gone,
}
