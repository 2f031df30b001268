//! Why bytes are read as no record file, or not as the first records of one.

ghost use Rattle.std.specs.Prelude.{◌≡◌};

use std::alloc::AllocError;
use thiserror::Error;

/// Why bytes are those of no record file.
#[derive(Clone, Copy, Debug, PartialEq, Eq, Error)]
pub enum FileFault {
    /// There are 10 bytes or more, and the first 7 are not those of a record file.
    #[error("foreign")]
    Foreign,
    /// Behind the open gate of this record, counted from 1, no whole record lies in the bytes.
    #[error("damaged {0}")]
    Damaged(usize),
}

/// Why there is no file of just the first records.
#[derive(Clone, Copy, Debug, PartialEq, Eq, Error)]
pub enum EarlierFault {
    /// There are 10 bytes or more, and the first 7 are not those of a record file.
    #[error("foreign")]
    Foreign,
    /// Behind the open gate of this record, counted from 1 and one of those that are wanted, no whole record lies in the bytes.
    #[error("damaged {0}")]
    Damaged(usize),
    /// The file has only so many records.
    #[error("short {0}")]
    Short(usize),
    /// A growth was refused.
    #[error("memory")]
    Memory,
}

impl From<FileFault> for EarlierFault {
    ghost use Rattle.earlier_file.specs.Earlier.{from_file};

    ghost from_gives = { λ f e. e ≡ from_file f };

    fn from(fault: FileFault) -> EarlierFault {
        match fault {
            FileFault::Foreign => EarlierFault::Foreign,
            FileFault::Damaged(k) => EarlierFault::Damaged(k),
        }
    }
}

impl From<AllocError> for EarlierFault {
    ghost use Rattle.earlier_file.specs.declared.fault.EarlierFault.TheVariants.{Memory};

    ghost from_gives = { λ _ e. e ≡ Memory };

    fn from(_: AllocError) -> Self {
        EarlierFault::Memory
    }
}
