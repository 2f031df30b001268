//! Why bytes were read as no stamp.

ghost use Rattle.std.specs.Prelude.{◌≡◌};
ghost use Rattle.stamp.specs.declared.fault.StampTextFault.TheVariants.{Memory};

use std::alloc::{AllocError, AllocFailed};
use thiserror::Error;

/// Why bytes are read as no stamp. Where a text has several faults, in either tree, the first of this list is answered;
/// `Memory` may come in place of any.
#[derive(Clone, Copy, Debug, PartialEq, Eq, Error)]
pub enum StampTextFault {
    /// They spell no stamp.
    #[error("not the text of a stamp")]
    Syntax,
    /// A tree is not in normal form.
    #[error("a stamp with a tree that is not in normal form")]
    NotNormal,
    /// A tree is deeper than 40.
    #[error("a stamp with a tree that is deeper than 40")]
    TooDeep,
    /// Some value is greater than 4,294,967,295.
    #[error("a stamp with a value above 4294967295")]
    TooLarge,
    /// A growth was refused.
    #[error("out of memory")]
    Memory,
}

impl From<AllocError> for StampTextFault {
    ghost from_gives = { λ _ e. e ≡ Memory };

    fn from(_error: AllocError) -> StampTextFault {
        StampTextFault::Memory
    }
}

impl<T: Drop> From<AllocFailed<T>> for StampTextFault {
    ghost from_gives = { λ _ e. e ≡ Memory };

    fn from(_error: AllocFailed<T>) -> StampTextFault {
        StampTextFault::Memory
    }
}

/// Why an operation of a stamp was refused. Where two apply, a fault of the event comes before one of the split or the
/// sum; `Memory` may come in place of any.
#[derive(Clone, Copy, Debug, PartialEq, Eq, Error)]
pub enum StampFault {
    /// The id owns nothing, so that it has no events.
    #[error("an event of an id that owns nothing")]
    NothingOwned,
    /// Some value would be greater than 4,294,967,295.
    #[error("an event that makes a value above 4294967295")]
    ClockFull,
    /// A part of the id would be deeper than 40.
    #[error("a fork of an id that is too deep to be split")]
    TooDeep,
    /// Some point is owned by both ids.
    #[error("an absorption of an id that overlaps")]
    Overlap,
    /// A growth was refused.
    #[error("out of memory")]
    Memory,
}
