//! What processes do, step by step.

use crate::name::Name;
use id_tree::Id;
use stamp::Stamp;

/// What a process does in one step.
#[derive(Drop)]
pub enum StepKind {
    /// It works on.
    Work,
    /// It takes a checkpoint.
    Check,
    /// It tells its present state.
    Present,
    /// It sends a message. Messages have names of their own.
    Send { message: Name },
    /// It receives a message.
    Receive { message: Name },
    /// It makes a child, which begins with this id.
    Fork { child: Name, given: Id },
    /// It ends, and its stamp goes to the target.
    Retire { target: Name },
    /// It takes up the stamp of a process that retired into it.
    Absorb { retired: Name },
}

/// One step of one process, with its stamp after it.
#[derive(Drop)]
pub struct Step {
    /// The process.
    pub process: Name,
    /// What it does.
    pub step_kind: StepKind,
    /// Its id and events after the step; after a fork the id is the part that it keeps.
    pub stamp: Stamp,
}
