//! Why calls of a coordinator are refused.

use thiserror::Error;

/// Why no pass was handed out.
#[derive(Clone, Copy, Debug, Error)]
pub enum PassFault {
    /// All 8,192 passes were handed out.
    #[error("no pass is left")]
    Worn,
    /// A growth was refused.
    #[error("out of memory")]
    Memory,
}

/// Why a call made no turn.
#[derive(Clone, Copy, Debug, Error)]
pub enum CallFault {
    /// The pass has seen a longer front than the desk has, or a later turn.
    #[error("the pass has seen front {seen} and turn {last}, the desk has {front} and {turns}")]
    Foreign {
        /// The number of accepted lines.
        front: u32,
        /// The longest front that the pass has seen.
        seen: u32,
        /// The number of turns.
        turns: u32,
        /// The number of the last turn of the pass.
        last: u32,
    },
    /// All 65,536 turns since the desk was opened were made.
    #[error("no turn is left")]
    Worn,
    /// A growth was refused.
    #[error("out of memory")]
    Memory,
}

/// Why a coordinator does not end.
#[derive(Clone, Copy, Debug, Error)]
pub enum CloseFault {
    /// The pass of this number has an entry that does not stand at its turn, or stands at the turn of an earlier pass, or shows
    /// a line that is not right. 0: not the same was held when the desk was opened as the coordinator keeps. It comes before all others.
    #[error("pass {0} is of another coordinator")]
    Stranger(u32),
    /// All entries together are fewer than the turns.
    #[error("{shares} of {turns} turns are there")]
    Missing {
        /// How many entries there are.
        shares: u32,
        /// How many turns were made.
        turns: u32,
    },
    /// A growth was refused.
    #[error("out of memory")]
    Memory,
}
