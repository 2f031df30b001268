//! A disk that keeps nothing.

ghost use Rattle.std.specs.Prelude.{◌≡◌, ◌↔◌, ◌+◌, ◌^◌, ◌<◌, Ok, Err, length, take, drop, IfOk, IsOk, OnOk};
ghost use Rattle.line_disk.specs.Disk.{Counts, CountsDevice, LeavesOnly, IsTorn, IsShortened, Passes, Rests, written, nothing_kept};

use crate::fault::device_failed;
use crate::{Disk, DiskFault};
use std::alloc::Global;

/// A disk that keeps nothing, for lines that stand in memory alone. It never keeps to what is said of disks, so no clause says what a
/// crash leaves of it. Its length is always 0. A read fails, and so does a write whose end is no 64-bit number.
#[derive(Drop)]
pub struct NullDisk {
    failures: u64,
}

impl NullDisk {
    ghost use Rattle.line_disk.specs.working.Null.{null_failures};

    /// No call was made yet.
    pub fn new() -> NullDisk
        ensures never_failed { null_failures result ≡ 0 }
    {
        NullDisk { failures: 0 }
    }
}

// What the trait says of crashes holds of no disk that keeps nothing; so what is said here is what each call answers.
impl Disk for NullDisk {
    ghost use Rattle.line_disk.specs.Disk.{nothing_kept};
    ghost use Rattle.line_disk.specs.working.Null.{null_failures};

    ghost view = { λ disk. nothing_kept };

    ghost keeps = { λ disk. ⊥ };

    ghost failed = { λ disk. disk.failures };

    ghost read_is_left = { λ disk keeps. absurd keeps };

    fn failures(&self) -> u64 {
        self.failures
    }

    fn len(&mut self) -> Result<usize, DiskFault>
        ensures empty { result ≡ Ok 0 }
        ensures len { ⊥ → IfOk result (λ n. n ≡ length nothing_kept.seen) }
        ensures rests { ⊥ → Rests nothing_kept nothing_kept }
        ensures premise { ⊥ ↔ ⊥ }
        ensures cause { CountsDevice result (null_failures self.old) (null_failures self.new) }
    {
        Ok(0)
    }

    fn read_at(&mut self, _alloc: Global, _at: usize, _n: usize) -> Result<Vec<u8>, DiskFault>
        ensures none { result ≡ Err DiskFault.Device }
        ensures n { IfOk result (λ bytes. length bytes.items ≡ _n) }
        ensures bytes { ⊥ → IfOk result (λ bytes. bytes.items ≡ take _n (drop _at nothing_kept.seen)) }
        ensures rests { ⊥ → Rests nothing_kept nothing_kept }
        ensures premise { ⊥ ↔ ⊥ }
        ensures cause { Counts result (null_failures self.old) (null_failures self.new) }
    {
        Err(device_failed(&mut self.failures))
    }

    fn write_at(&mut self, at: usize, bytes: &[u8]) -> Result<(), DiskFault>
        ensures ok { IsOk result ↔ (at + length bytes.now < 2 ^ 64) }
        ensures written { ⊥ → OnOk result (nothing_kept.seen ≡ written nothing_kept.seen at bytes.now) }
        ensures crash { ⊥ → Passes (IsTorn at (length bytes.now)) nothing_kept nothing_kept }
        ensures fits { OnOk result (at + length bytes.now < 2 ^ 64) }
        ensures premise { ⊥ ↔ ⊥ }
        ensures cause { CountsDevice result (null_failures self.old) (null_failures self.new) }
    {
        match at.checked_add(bytes.len()) {
            Some(_) => Ok(()),
            None => Err(device_failed(&mut self.failures)),
        }
    }

    fn cut(&mut self, _len: usize) -> Result<(), DiskFault>
        ensures ok { IsOk result }
        ensures cut { ⊥ → OnOk result (nothing_kept.seen ≡ take _len nothing_kept.seen) }
        ensures crash { ⊥ → Passes (IsShortened _len) nothing_kept nothing_kept }
        ensures premise { ⊥ ↔ ⊥ }
        ensures cause { CountsDevice result (null_failures self.old) (null_failures self.new) }
    {
        Ok(())
    }

    fn sync(&mut self) -> Result<(), DiskFault>
        ensures ok { IsOk result }
        ensures durable { ⊥ → OnOk result (LeavesOnly nothing_kept nothing_kept.seen) }
        ensures rests { ⊥ → Rests nothing_kept nothing_kept }
        ensures premise { ⊥ ↔ ⊥ }
        ensures cause { CountsDevice result (null_failures self.old) (null_failures self.new) }
    {
        Ok(())
    }
}
