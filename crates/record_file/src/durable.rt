//! A change, and the sync that makes it last.

ghost use Rattle.std.specs.Prelude.{◌≡◌, ◌↔◌, ◌+◌, ◌^◌, ◌<◌, ◌≤◌, length, take, OnOk};
ghost use Rattle.line_disk.specs.Disk.{LeavesOnly, IsTorn, IsShortened, written, Passes, CountsDevice};

use line_disk::{Disk, DiskFault};

/// Writes, and syncs.
pub(crate) fn write_durably<D: Disk>(disk: &mut D, at: usize, bytes: &[u8]) -> Result<(), DiskFault>
    requires { D.keeps disk.old → at ≤ length (D.view disk.old).seen }
    ensures written { D.keeps disk.old → OnOk result ((D.view disk.new).seen ≡ written (D.view disk.old).seen at bytes.now) }
    ensures durable { D.keeps disk.old → OnOk result (LeavesOnly (D.view disk.new) (D.view disk.new).seen) }
    ensures crash { D.keeps disk.old → Passes (IsTorn at (length bytes.now)) (D.view disk.old) (D.view disk.new) }
    ensures fits { OnOk result (at + length bytes.now < 2 ^ 64) }
    ensures premise { D.keeps disk.new ↔ D.keeps disk.old }
    ensures cause { CountsDevice result (D.failed disk.old) (D.failed disk.new) }
{
    disk.write_at(at, bytes)?;
    disk.sync()
}

/// Cuts, and syncs.
pub(crate) fn cut_durably<D: Disk>(disk: &mut D, len: usize) -> Result<(), DiskFault>
    requires { D.keeps disk.old → len ≤ length (D.view disk.old).seen }
    ensures cut { D.keeps disk.old → OnOk result ((D.view disk.new).seen ≡ take len (D.view disk.old).seen) }
    ensures durable { D.keeps disk.old → OnOk result (LeavesOnly (D.view disk.new) (D.view disk.new).seen) }
    ensures crash { D.keeps disk.old → Passes (IsShortened len) (D.view disk.old) (D.view disk.new) }
    ensures premise { D.keeps disk.new ↔ D.keeps disk.old }
    ensures cause { CountsDevice result (D.failed disk.old) (D.failed disk.new) }
{
    disk.cut(len)?;
    disk.sync()
}
