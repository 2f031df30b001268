//! Why a process refuses a call.

ghost use Rattle.std.specs.Prelude.{◌≡◌};
ghost use Rattle.process.specs.declared.fault.ProcessFault.TheVariants.{Memory};

use std::alloc::{AllocError, AllocFailed};
use thiserror::Error;

/// Why a process refuses a call, and stays as it was. Where several apply, the first of this list is answered, but for `Memory`, which may
/// come in place of any.
#[derive(Clone, Copy, Debug, PartialEq, Eq, Error)]
pub enum ProcessFault {
    /// The process is to retire into itself.
    #[error("self target")]
    SelfTarget,
    /// The child is to have the name of the process.
    #[error("name taken")]
    Taken,
    /// The retirement is into another process, or this one's own.
    #[error("not waiting")]
    NotWaiting,
    /// What came is of an older epoch, so it may be undone. A message is dropped; a retirement may be kept (`Process::absorb_kept`). Or the
    /// process, or what was kept of it, has the epoch that it is to return to, or a later one.
    #[error("older epoch")]
    Older,
    /// What came is of a newer epoch: it waits until this process has returned, too. A message of a newer epoch than the process is not handed
    /// over once more, either.
    #[error("newer epoch")]
    Newer,
    /// The process made 4,294,967,295 reports.
    #[error("no number left")]
    Worn,
    /// The id owns nothing. No process that began as the root, or from a start that a fork gave, has such an id.
    #[error("nothing owned")]
    NothingOwned,
    /// Some value would be greater than 4,294,967,295.
    #[error("clock full")]
    ClockFull,
    /// A part of the id would be deeper than 40; or a leaf is asked for that is, each leaf of the id is deeper, or that leaf is all of it.
    #[error("too deep")]
    TooDeep,
    /// Some point is owned by the process and by the retired one.
    #[error("overlap")]
    Overlap,
    /// What was kept, and is to be returned to, is another process's.
    #[error("other process")]
    OtherProcess,
    /// The message that is to be handed over once more tells what the process does not know: it did not send it, or that is undone.
    #[error("not known")]
    NotKnown,
    /// A growth was refused.
    #[error("memory")]
    Memory,
}

impl From<AllocError> for ProcessFault {
    ghost from_gives = { λ _ e. e ≡ Memory };

    fn from(_error: AllocError) -> ProcessFault {
        ProcessFault::Memory
    }
}

impl<T: Drop> From<AllocFailed<T>> for ProcessFault {
    ghost from_gives = { λ _ e. e ≡ Memory };

    fn from(_error: AllocFailed<T>) -> ProcessFault {
        ProcessFault::Memory
    }
}
