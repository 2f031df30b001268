//! Why a call of a disk fails.

ghost use Rattle.std.specs.Prelude.{◌≡◌};
ghost use Rattle.line_disk.specs.Disk.{one_more};
ghost use Rattle.line_disk.specs.declared.fault.DiskFault.TheVariants.{Device, Memory};

use std::alloc::AllocError;
use thiserror::Error;

/// Why a call of a disk failed.
#[derive(Clone, Copy, Debug, PartialEq, Eq, Error)]
pub enum DiskFault {
    /// The device failed, and the count of failures rose. The call may have done nothing, all or a part.
    #[error("the device failed")]
    Device,
    /// A growth was refused, and the disk is as it was. Only a read answers so.
    #[error("out of memory")]
    Memory,
}

impl From<AllocError> for DiskFault {
    ghost from_gives = { λ _ e. e ≡ Memory };

    fn from(_error: AllocError) -> DiskFault {
        DiskFault::Memory
    }
}

/// Counts a failure of the device.
pub(crate) fn device_failed(failures: &mut u64) -> DiskFault
    ensures fault { result ≡ Device }
    ensures counted { failures.new ≡ one_more failures.old }
{
    *failures = failures.saturating_add(1);
    DiskFault::Device
}
