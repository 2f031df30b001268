//! Why a call gave no id.

ghost use Rattle.std.specs.Prelude.{◌≡◌};
ghost use Rattle.id_tree.specs.declared.fault.IdFault.TheVariants.{Memory};
ghost use Rattle.id_tree.specs.declared.fault.SplitFault.TheVariants as split;
ghost use Rattle.id_tree.specs.declared.fault.SumFault.TheVariants as sum;

use std::alloc::{AllocError, AllocFailed};
use thiserror::Error;

/// Why bytes are read as no id. Where a text has several faults, the first of this list is answered; `Memory` may come
/// in place of any.
#[derive(Clone, Copy, Debug, PartialEq, Eq, Error)]
pub enum IdFault {
    /// They spell no tree.
    #[error("not the text of an id")]
    Syntax,
    /// Some pair is of two equal leaves.
    #[error("an id that is not in normal form")]
    NotNormal,
    /// The tree is deeper than 40.
    #[error("an id that is deeper than 40")]
    TooDeep,
    /// A growth was refused.
    #[error("out of memory")]
    Memory,
}

impl From<AllocError> for IdFault {
    ghost from_gives = { λ _ e. e ≡ Memory };

    fn from(_error: AllocError) -> IdFault {
        IdFault::Memory
    }
}

impl<T: Drop> From<AllocFailed<T>> for IdFault {
    ghost from_gives = { λ _ e. e ≡ Memory };

    fn from(_error: AllocFailed<T>) -> IdFault {
        IdFault::Memory
    }
}

/// Why an id was not split.
#[derive(Clone, Copy, Debug, PartialEq, Eq, Error)]
pub enum SplitFault {
    /// It owns nothing.
    #[error("an id that owns nothing has no parts")]
    NothingOwned,
    /// A part would be deeper than 40.
    #[error("a part of the id would be deeper than 40")]
    TooDeep,
    /// A growth was refused.
    #[error("out of memory")]
    Memory,
}

impl From<AllocError> for SplitFault {
    ghost from_gives = { λ _ e. e ≡ split.Memory };

    fn from(_error: AllocError) -> SplitFault {
        SplitFault::Memory
    }
}

/// Why two ids have no sum.
#[derive(Clone, Copy, Debug, PartialEq, Eq, Error)]
pub enum SumFault {
    /// Some point is owned by both.
    #[error("ids that overlap")]
    Overlap,
    /// A growth was refused.
    #[error("out of memory")]
    Memory,
}

impl From<AllocError> for SumFault {
    ghost from_gives = { λ _ e. e ≡ sum.Memory };

    fn from(_error: AllocError) -> SumFault {
        SumFault::Memory
    }
}
