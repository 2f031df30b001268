//! Turns and their receipts.

use report_line::{Call, Reply};
use thiserror::Error;

/// What a call got: the number of its turn, counted from 1 since the desk was opened, and the reply.
#[derive(Drop)]
pub struct Receipt {
    pub turn: u32,
    pub reply: Reply,
}

/// A call that had its turn.
#[derive(Drop)]
pub struct Turn {
    pub call: Call,
    pub receipt: Receipt,
}

/// Why a call got no turn. Nothing changed then.
#[derive(Clone, Copy, Debug, Error)]
pub enum TurnFault {
    /// All 65,536 turns since the desk was opened were made.
    #[error("worn")]
    Worn,
    /// A growth was refused, in a question for the state of a process.
    #[error("memory")]
    Memory,
}
