//! A disk that may crash.

ghost use Rattle.std.specs.Prelude.{◌≡◌, ◌↔◌, ◌+◌, ◌^◌, ◌<◌, ◌≤◌, ℕ, length, take, drop, IfOk, OnOk};
ghost use Rattle.line_disk.specs.Disk.{View, Leaves, LeavesOnly, IsTorn, IsShortened, written, Passes, Rests, Counts, CountsDevice};

use crate::DiskFault;
use std::alloc::Global;

/// A file of bytes on a device that may fail, and may stop at any moment. Offsets and lengths are in bytes.
pub trait Disk {
    /// What a read gives, the moment, and what a crash at each moment could leave.
    ghost view: { Self → View };

    /// Whether the disk keeps to what is said of its view. It is a premise, which each call leaves as it was.
    ghost keeps: { Self → Type 0 };

    /// How many calls failed.
    ghost failed: { Self → ℕ };

    /// How many calls failed. At 2^64 - 1 the count stays.
    fn failures(&self) -> u64
        ensures { result ≡ failed self.now };

    /// The length of the file.
    fn len(&mut self) -> Result<usize, DiskFault>
        ensures len { keeps self.old → IfOk result (λ n. n ≡ length (view self.old).seen) }
        ensures rests { keeps self.old → Rests (view self.old) (view self.new) }
        ensures premise { keeps self.new ↔ keeps self.old }
        ensures cause { CountsDevice result (failed self.old) (failed self.new) };

    /// So many bytes from this offset on, all of which have to lie in the file.
    fn read_at(&mut self, alloc: Global, at: usize, n: usize) -> Result<Vec<u8>, DiskFault>
        requires { keeps self.old → at + n ≤ length (view self.old).seen }
        ensures n { IfOk result (λ bytes. length bytes.items ≡ n) }
        ensures bytes { keeps self.old → IfOk result (λ bytes. bytes.items ≡ take n (drop at (view self.old).seen)) }
        ensures rests { keeps self.old → Rests (view self.old) (view self.new) }
        ensures premise { keeps self.new ↔ keeps self.old }
        ensures cause { Counts result (failed self.old) (failed self.new) };

    /// Writes over what is there, and past the end. The offset is within the file or right behind it.
    fn write_at(&mut self, at: usize, bytes: &[u8]) -> Result<(), DiskFault>
        requires { keeps self.old → at ≤ length (view self.old).seen }
        ensures written { keeps self.old → OnOk result ((view self.new).seen ≡ written (view self.old).seen at bytes.now) }
        ensures crash { keeps self.old → Passes (IsTorn at (length bytes.now)) (view self.old) (view self.new) }
        ensures fits { OnOk result (at + length bytes.now < 2 ^ 64) }
        ensures premise { keeps self.new ↔ keeps self.old }
        ensures cause { CountsDevice result (failed self.old) (failed self.new) };

    /// Shortens the file to this length, which is at most its own.
    fn cut(&mut self, len: usize) -> Result<(), DiskFault>
        requires { keeps self.old → len ≤ length (view self.old).seen }
        ensures cut { keeps self.old → OnOk result ((view self.new).seen ≡ take len (view self.old).seen) }
        ensures crash { keeps self.old → Passes (IsShortened len) (view self.old) (view self.new) }
        ensures premise { keeps self.new ↔ keeps self.old }
        ensures cause { CountsDevice result (failed self.old) (failed self.new) };

    /// Makes what was written last: after it a crash leaves what a read gives.
    fn sync(&mut self) -> Result<(), DiskFault>
        ensures durable { keeps self.old → OnOk result (LeavesOnly (view self.new) (view self.old).seen) }
        ensures rests { keeps self.old → Rests (view self.old) (view self.new) }
        ensures premise { keeps self.new ↔ keeps self.old }
        ensures cause { CountsDevice result (failed self.old) (failed self.new) };

    /// What a read gives is at each moment among what a crash could leave.
    ghost read_is_left: { (disk : Self) → keeps disk → Leaves (view disk) (view disk).seen };
}
