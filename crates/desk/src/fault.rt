//! Why no desk was opened.

ghost use Rattle.std.specs.Prelude.{◌≡◌};

use record_file::OpenFault;
use thiserror::Error;

/// Why a desk was not opened. Records are counted from 1. The disk comes back beside it.
#[derive(Clone, Copy, Debug, Error)]
pub enum DeskFault {
    /// The file is no record file. It is as it was.
    #[error("foreign")]
    Foreign,
    /// Behind the open gate of this record no whole record lies in the file. It is as it was.
    #[error("damaged {0}")]
    Damaged(usize),
    /// This record is the line of neither a report nor a settlement, or bears a mark.
    #[error("line {0}")]
    Line(usize),
    /// This record is refused by this number: that of the first test that it fails, or 1 where its report was accepted before.
    #[error("refused {0} {1}")]
    Refused(usize, u8),
    /// The device failed.
    #[error("device")]
    Device,
    /// A growth was refused.
    #[error("memory")]
    Memory,
}

impl From<OpenFault> for DeskFault {
    ghost use Rattle.desk.specs.working.Faults.{from_store};

    ghost from_gives = { λ o e. e ≡ from_store o };

    fn from(fault: OpenFault) -> DeskFault {
        match fault {
            OpenFault::Foreign => DeskFault::Foreign,
            OpenFault::Damaged(k) => DeskFault::Damaged(k),
            OpenFault::Device => DeskFault::Device,
            OpenFault::Memory => DeskFault::Memory,
        }
    }
}
