//! A disk in memory.

ghost use Rattle.std.specs.Prelude.{IsSome, Some, None, Ok, ◌≡◌, ◌≢◌, ◌-◌, ◌↔◌, ◌⊎◌, ◌+◌, ◌^◌, ◌<◌, ◌≤◌, ◌++◌, [], ◌∷◌, ℕ, List, length, take, drop, min, IfOk, IsOk, OnOk, OnErr};
ghost use Rattle.line_disk.specs.Disk.{Counts, CountsDevice, LeavesOnly, IsTorn, IsShortened, Passes, Rests, written, DidNothing, DidWrite, DidCut, DidSync, one_more};

use crate::fault::device_failed;
use crate::image::image_of;
use crate::plan::{Effect, Planned, effect_of};
use crate::tape::Tape;
use crate::{Disk, DiskFault};
use std::alloc::{AllocError, Global};

/// A disk in memory. It notes each of its calls, so what a crash could leave at each moment can be had from it, and makes the calls
/// fail that are planned to.
pub struct MemoryDisk {
    tape: Tape,
    failing: Vec<Planned>,
    failures: u64,
}

impl Drop for MemoryDisk {
    fn drop(self) {
        let MemoryDisk {
            tape: _,
            failing: _,
            failures: _,
        } = self;
    }
}

impl MemoryDisk {
    ghost use Rattle.line_disk.specs.Tape.{bytes_of, image_after, disk_view, disk_failures, plan_of, planned_next, room_of};

    /// A disk that holds these bytes, all of them durable.
    pub fn new(alloc: Global, bytes: &[u8]) -> Result<MemoryDisk, AllocError>
        ensures bytes { IfOk result (λ disk. bytes_of disk ≡ bytes.now) }
        ensures durable { IfOk result (λ disk. LeavesOnly (disk_view disk) bytes.now) }
        ensures no_call { IfOk result (λ disk. (disk_view disk).clock ≡ 0) }
        ensures never_failed { IfOk result (λ disk. disk_failures disk ≡ 0) }
        ensures no_plan { IfOk result (λ disk. plan_of disk ≡ []) }
    {
        let tape = Tape {
            alloc,
            first: bytes.to_vec(alloc)?,
            bytes: bytes.to_vec(alloc)?,
            changes: Vec::new(alloc),
            idle: 0,
            count: 0,
        };
        Ok(MemoryDisk {
            tape,
            failing: Vec::new(alloc),
            failures: 0,
        })
    }

    /// The same, with room from the start to note so many calls that change it: these take no memory for their notes.
    pub fn with_room(alloc: Global, bytes: &[u8], changes: usize) -> Result<MemoryDisk, AllocError>
        ensures bytes { IfOk result (λ disk. bytes_of disk ≡ bytes.now) }
        ensures durable { IfOk result (λ disk. LeavesOnly (disk_view disk) bytes.now) }
        ensures no_call { IfOk result (λ disk. (disk_view disk).clock ≡ 0) }
        ensures never_failed { IfOk result (λ disk. disk_failures disk ≡ 0) }
        ensures no_plan { IfOk result (λ disk. plan_of disk ≡ []) }
        ensures room { IfOk result (λ disk. changes ≤ room_of disk) }
    {
        let mut disk = MemoryDisk::new(alloc, bytes)?;
        disk.tape.changes.reserve(changes)?;
        Ok(disk)
    }

    /// Makes the k-th call fail, counted from 1 and from the first call of all. Of two plans for one call the first holds.
    pub fn fail_call(&mut self, k: usize, effect: Effect) -> Result<(), AllocError>
        ensures ok { OnOk result (plan_of self.new ≡ plan_of self.old ++ record { call = k; effect = effect } ∷ []) }
        ensures err { OnErr result (plan_of self.new ≡ plan_of self.old) }
        ensures no_call { (disk_view self.new).clock ≡ (disk_view self.old).clock }
        ensures rests { Rests (disk_view self.old) (disk_view self.new) }
        ensures nothing { DidNothing (disk_view self.old) (disk_view self.new) }
        ensures failures { disk_failures self.new ≡ disk_failures self.old }
    {
        self.failing.push(Planned { call: k, effect })?;
        Ok(())
    }

    /// The file as it is now.
    pub fn bytes(&self) -> &[u8]
        ensures held { result.now ≡ bytes_of self.now }
        ensures seen { result.now ≡ (disk_view self.now).seen }
    {
        &self.tape.bytes
    }

    /// The bytes after k calls and n bytes of the next one, if that is a write: what a crash in that call could leave.
    pub fn image(&self, alloc: Global, k: usize, n: usize) -> Result<Vec<u8>, AllocError>
        ensures crash { IfOk result (λ image. (disk_view self.now).image (min (k + 1) (disk_view self.now).clock) image.items) }
        ensures bytes { IfOk result (λ image. image.items ≡ image_after self.now k n) }
    {
        image_of(alloc, &self.tape.first, &self.tape.changes, k, n)
    }

    /// How many calls there were, those that failed counted too.
    pub fn calls(&self) -> usize
        ensures { result ≡ (disk_view self.now).clock }
    {
        self.tape.count
    }

    /// What the next call is to do, if it is to fail.
    fn next_effect(&self) -> Option<Effect>
        ensures { result ≡ planned_next self.now }
    {
        effect_of(&self.failing, self.tape.count.saturating_add(1))
    }
}

// The clauses of the trait once more, without its premise, which is always met here; that a call which is planned to fail does, and
// has done nothing or the whole; and that each call is noted, also where it fails.
impl Disk for MemoryDisk {
    ghost use Rattle.line_disk.specs.working.ReadIsLeft.{left_now};
    ghost use Rattle.line_disk.specs.working.Noting.{calls_in};
    ghost use Rattle.line_disk.specs.Tape.{view_of, disk_view, disk_failures, planned_next, room_of};

    ghost view = { λ disk. view_of disk.tape };

    ghost keeps = { λ disk. Unit {0} };

    ghost failed = { λ disk. disk.failures };

    ghost read_is_left = { λ disk keeps. left_now disk.tape.first.items (calls_in disk.tape.changes.items disk.tape.idle) };

    fn failures(&self) -> u64 {
        self.failures
    }

    fn len(&mut self) -> Result<usize, DiskFault>
        ensures len { IfOk result (λ n. n ≡ length (disk_view self.old).seen) }
        ensures rests { Rests (disk_view self.old) (disk_view self.new) }
        ensures premise { Unit {0} ↔ Unit {0} }
        ensures cause { CountsDevice result (disk_failures self.old) (disk_failures self.new) }
        ensures planned { IsSome (planned_next self.old) → result ≡ Err DiskFault.Device }
        ensures unplanned { planned_next self.old ≡ None → (disk_view self.old).clock < 2 ^ 64 - 1 → result ≡ Ok (length (disk_view self.old).seen) }
        ensures nothing { DidNothing (disk_view self.old) (disk_view self.new) }
        ensures noted { (disk_view self.new).clock ≡ one_more (disk_view self.old).clock }
        ensures left { room_of self.new ≡ room_of self.old }
    {
        let effect = self.next_effect();
        if !self.tape.idle() || effect.is_some() {
            return Err(device_failed(&mut self.failures));
        }
        Ok(self.tape.bytes.len())
    }

    fn read_at(&mut self, alloc: Global, at: usize, n: usize) -> Result<Vec<u8>, DiskFault>
        requires { at + n ≤ length (disk_view self.old).seen }
        ensures n { IfOk result (λ bytes. length bytes.items ≡ n) }
        ensures bytes { IfOk result (λ bytes. bytes.items ≡ take n (drop at (disk_view self.old).seen)) }
        ensures rests { Rests (disk_view self.old) (disk_view self.new) }
        ensures premise { Unit {0} ↔ Unit {0} }
        ensures cause { Counts result (disk_failures self.old) (disk_failures self.new) }
        ensures planned { IsSome (planned_next self.old) → result ≡ Err DiskFault.Device }
        ensures unplanned { planned_next self.old ≡ None → (disk_view self.old).clock < 2 ^ 64 - 1 → result ≢ Err DiskFault.Device }
        ensures nothing { DidNothing (disk_view self.old) (disk_view self.new) }
        ensures noted { (disk_view self.new).clock ≡ one_more (disk_view self.old).clock }
        ensures left { room_of self.new ≡ room_of self.old }
    {
        let effect = self.next_effect();
        if !self.tape.idle() || effect.is_some() {
            return Err(device_failed(&mut self.failures));
        }
        Ok(self.tape.bytes[at..at + n].to_vec(alloc)?)
    }

    fn write_at(&mut self, at: usize, bytes: &[u8]) -> Result<(), DiskFault>
        requires { at ≤ length (disk_view self.old).seen }
        ensures written { OnOk result ((disk_view self.new).seen ≡ written (disk_view self.old).seen at bytes.now) }
        ensures crash { Passes (IsTorn at (length bytes.now)) (disk_view self.old) (disk_view self.new) }
        ensures fits { OnOk result (at + length bytes.now < 2 ^ 64) }
        ensures premise { Unit {0} ↔ Unit {0} }
        ensures cause { CountsDevice result (disk_failures self.old) (disk_failures self.new) }
        ensures planned { IsSome (planned_next self.old) → result ≡ Err DiskFault.Device }
        ensures nothing { planned_next self.old ≡ Some Effect.Nothing → DidNothing (disk_view self.old) (disk_view self.new) }
        ensures done { OnOk result (DidWrite at bytes.now (disk_view self.old) (disk_view self.new)) }
        ensures whole { DidWrite at bytes.now (disk_view self.old) (disk_view self.new) ⊎ DidNothing (disk_view self.old) (disk_view self.new) }
        ensures noted { (disk_view self.new).clock ≡ one_more (disk_view self.old).clock }
        ensures left { room_of self.old ≤ room_of self.new + 1 }
    {
        let effect = self.next_effect();
        let done = match effect {
            Some(Effect::Nothing) => self.tape.idle(),
            Some(Effect::All) | None => self.tape.write(at, bytes),
        };
        if effect.is_some() || !done {
            return Err(device_failed(&mut self.failures));
        }
        Ok(())
    }

    fn cut(&mut self, len: usize) -> Result<(), DiskFault>
        ensures cut { OnOk result ((disk_view self.new).seen ≡ take len (disk_view self.old).seen) }
        ensures crash { Passes (IsShortened len) (disk_view self.old) (disk_view self.new) }
        ensures premise { Unit {0} ↔ Unit {0} }
        ensures cause { CountsDevice result (disk_failures self.old) (disk_failures self.new) }
        ensures planned { IsSome (planned_next self.old) → result ≡ Err DiskFault.Device }
        ensures nothing { planned_next self.old ≡ Some Effect.Nothing → DidNothing (disk_view self.old) (disk_view self.new) }
        ensures done { OnOk result (DidCut len (disk_view self.old) (disk_view self.new)) }
        ensures whole { DidCut len (disk_view self.old) (disk_view self.new) ⊎ DidNothing (disk_view self.old) (disk_view self.new) }
        ensures noted { (disk_view self.new).clock ≡ one_more (disk_view self.old).clock }
        ensures room { planned_next self.old ≡ None → (disk_view self.old).clock < 2 ^ 64 - 1 → 0 < room_of self.old → IsOk result }
        ensures left { room_of self.old ≤ room_of self.new + 1 }
    {
        let effect = self.next_effect();
        let done = match effect {
            Some(Effect::Nothing) => self.tape.idle(),
            Some(Effect::All) | None => self.tape.cut(len),
        };
        if effect.is_some() || !done {
            return Err(device_failed(&mut self.failures));
        }
        Ok(())
    }

    fn sync(&mut self) -> Result<(), DiskFault>
        ensures durable { OnOk result (LeavesOnly (disk_view self.new) (disk_view self.old).seen) }
        ensures rests { Rests (disk_view self.old) (disk_view self.new) }
        ensures premise { Unit {0} ↔ Unit {0} }
        ensures cause { CountsDevice result (disk_failures self.old) (disk_failures self.new) }
        ensures planned { IsSome (planned_next self.old) → result ≡ Err DiskFault.Device }
        ensures nothing { planned_next self.old ≡ Some Effect.Nothing → DidNothing (disk_view self.old) (disk_view self.new) }
        ensures whole { DidSync (disk_view self.old) (disk_view self.new) ⊎ DidNothing (disk_view self.old) (disk_view self.new) }
        ensures noted { (disk_view self.new).clock ≡ one_more (disk_view self.old).clock }
        ensures room { planned_next self.old ≡ None → (disk_view self.old).clock < 2 ^ 64 - 1 → 0 < room_of self.old → IsOk result }
        ensures left { room_of self.old ≤ room_of self.new + 1 }
    {
        let effect = self.next_effect();
        let done = match effect {
            Some(Effect::Nothing) => self.tape.idle(),
            Some(Effect::All) | None => self.tape.sync(),
        };
        if effect.is_some() || !done {
            return Err(device_failed(&mut self.failures));
        }
        Ok(())
    }
}
