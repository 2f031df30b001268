//! Why a tool ends early.

use coordinator::{CallFault, CloseFault, PassFault};
use desk::DeskFault;
use driver::StepFault;
use line_disk::Unopened;
use report_line::LineFault;
use std::alloc::AllocError;
use std::{io, result};
use thiserror::Error;

/// What failed. It is shown in the words of that.
#[derive(Clone, Copy, Debug, Error)]
pub enum Fault {
    /// A growth was refused.
    #[error(transparent)]
    Memory(#[from(alloc)] AllocError),
    /// A stream or a file.
    #[error(transparent)]
    Io(#[from] io::Error),
    /// A call of a coordinator.
    #[error(transparent)]
    Call(#[from] CallFault),
    /// The end of a coordinator.
    #[error(transparent)]
    Close(#[from] CloseFault),
    /// The opening of a desk.
    #[error(transparent)]
    Desk(#[from] DeskFault),
    /// The reading of a line.
    #[error(transparent)]
    Line(#[from] LineFault),
    /// A coordinator hands out no pass.
    #[error(transparent)]
    Pass(#[from] PassFault),
    /// A step of a world.
    #[error(transparent)]
    Step(#[from] StepFault),
    /// The opening of a record file.
    #[error(transparent)]
    Unopened(#[from] Unopened),
}

/// What a tool makes, or why it ends early.
pub type Result<T, E = Fault> = result::Result<T, E>;
