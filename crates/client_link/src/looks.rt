//! Waits that are cut into pieces, so that a request that a service ends is seen in time.

use std::io::{self, ErrorKind};
use std::time::Duration;

/// After so many milliseconds of waiting one looks whether the end is requested.
const LOOK: u64 = 250;

/// So many times one looks in a second.
const LOOKS_A_SECOND: u64 = 4;

/// How long one waits before the next look.
pub(crate) fn look() -> Duration {
    Duration::from_millis(LOOK)
}

/// How often one looks in this time, where whole seconds are counted.
pub(crate) fn looks_in(time: Duration) -> u64 {
    time.as_secs().saturating_mul(LOOKS_A_SECOND)
}

/// Whether a call failed since its time was up.
pub(crate) fn is_time_up(error: &io::Error) -> bool {
    matches!(error.kind(), ErrorKind::WouldBlock | ErrorKind::TimedOut)
}
