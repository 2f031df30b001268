//! Why no store was opened.

ghost use Rattle.std.specs.Prelude.{◌≡◌};

use crate::reading::ReadFault;
use line_disk::DiskFault;
use thiserror::Error;

/// Why a record file was not opened. The disk comes back beside it.
#[derive(Clone, Copy, Debug, PartialEq, Eq, Error)]
pub enum OpenFault {
    /// The file has 10 bytes or more, and the first 7 are not those of a record file. It is as it was.
    #[error("foreign")]
    Foreign,
    /// Behind the open gate of this record, counted from 1, no whole record lies in the file. It is as it was.
    #[error("damaged {0}")]
    Damaged(usize),
    /// The device failed.
    #[error("device")]
    Device,
    /// A growth was refused. The file is as it was.
    #[error("memory")]
    Memory,
}

impl From<DiskFault> for OpenFault {
    ghost use Rattle.record_file.specs.working.Faults.{from_disk};

    ghost from_gives = { λ d e. e ≡ from_disk d };

    fn from(fault: DiskFault) -> OpenFault {
        match fault {
            DiskFault::Device => OpenFault::Device,
            DiskFault::Memory => OpenFault::Memory,
        }
    }
}

impl From<ReadFault> for OpenFault {
    ghost use Rattle.record_file.specs.working.Faults.{from_read};

    ghost from_gives = { λ r e. e ≡ from_read r };

    fn from(fault: ReadFault) -> OpenFault {
        match fault {
            ReadFault::Foreign => OpenFault::Foreign,
            ReadFault::Damaged(k) => OpenFault::Damaged(k),
            ReadFault::Memory => OpenFault::Memory,
        }
    }
}
