//! What a disk in memory held at first, what it holds, and the calls between.

ghost use Rattle.std.specs.Prelude.{◌≡◌, ◌+◌, ◌-◌, ◌^◌, ◌<◌, ◌≤◌, IsTrue, length, take};
ghost use Rattle.std.specs.Bool.{OnTrue, OnFalse};
ghost use Rattle.line_disk.specs.Disk.{LeavesOnly, IsTorn, IsShortened, Passes, Rests, written, DidNothing, DidWrite, DidCut, DidSync, one_more};
ghost use Rattle.line_disk.specs.working.Noting.{calls_in};
ghost use Rattle.line_disk.specs.Replay.{after_calls};

use crate::change::{Change, Noted};
use crate::overwrite::overwrite;
use std::alloc::Global;

/// A disk's first bytes, all of them durable, its bytes, and each call between. A call that does nothing is only counted, so
/// that it stands here without memory.
pub(crate) struct Tape {
    pub alloc: Global,
    pub first: Vec<u8>,
    pub bytes: Vec<u8>,
    pub changes: Vec<Noted>,
    /// How many calls did nothing since the last change.
    pub idle: usize,
    /// How many calls there were.
    pub count: usize,
    ghost some: { idle ≤ count },
    ghost counted: { count ≡ length (calls_in changes.items idle) },
    ghost replayed: { bytes.items ≡ after_calls first.items (calls_in changes.items idle) },
}

impl Drop for Tape {
    fn drop(self) {
        let Tape {
            alloc: _,
            first: _,
            bytes: _,
            changes: _,
            idle: _,
            count: _,
        } = self;
    }
}

// Each call answers whether it was done. One that was not, for want of memory or past 2^64 - 1 calls, did nothing.
impl Tape {
    ghost use Rattle.line_disk.specs.Tape.{view_of, tape_bytes, room_in};

    /// A call that does nothing.
    pub fn idle(&mut self) -> bool
        ensures rests { Rests (view_of self.old) (view_of self.new) }
        ensures nothing { DidNothing (view_of self.old) (view_of self.new) }
        ensures bytes { tape_bytes self.new ≡ tape_bytes self.old }
        ensures noted { (view_of self.new).clock ≡ one_more (view_of self.old).clock }
        ensures room { (view_of self.old).clock < 2 ^ 64 - 1 → IsTrue result }
        ensures left { room_in self.new ≡ room_in self.old }
    {
        if self.count == usize::MAX {
            return false;
        }
        self.idle += 1;
        self.count += 1;
        true
    }

    /// Writes over what is there, and past the end.
    pub fn write(&mut self, at: usize, bytes: &[u8]) -> bool
        requires { at ≤ length (view_of self.old).seen }
        ensures written { OnTrue result ((view_of self.new).seen ≡ written (view_of self.old).seen at bytes.now) }
        ensures crash { Passes (IsTorn at (length bytes.now)) (view_of self.old) (view_of self.new) }
        ensures done { OnTrue result (DidWrite at bytes.now (view_of self.old) (view_of self.new)) }
        ensures not_done { OnFalse result (DidNothing (view_of self.old) (view_of self.new)) }
        ensures fits { OnTrue result (at + length bytes.now < 2 ^ 64) }
        ensures noted { (view_of self.new).clock ≡ one_more (view_of self.old).clock }
        ensures left { room_in self.old ≤ room_in self.new + 1 }
    {
        let Ok(copy) = bytes.to_vec(self.alloc) else {
            self.idle();
            return false;
        };
        if self.count == usize::MAX
            || self.changes.reserve(1).is_err()
            || overwrite(&mut self.bytes, at, bytes).is_err()
        {
            self.idle();
            return false;
        }
        let change = Change::Write(at, copy);
        let idle = self.idle;
        self.changes.push_reserved(Noted { idle, change });
        self.idle = 0;
        self.count += 1;
        true
    }

    /// Shortens the file.
    pub fn cut(&mut self, len: usize) -> bool
        ensures cut { OnTrue result ((view_of self.new).seen ≡ take len (view_of self.old).seen) }
        ensures crash { Passes (IsShortened len) (view_of self.old) (view_of self.new) }
        ensures done { OnTrue result (DidCut len (view_of self.old) (view_of self.new)) }
        ensures not_done { OnFalse result (DidNothing (view_of self.old) (view_of self.new)) }
        ensures noted { (view_of self.new).clock ≡ one_more (view_of self.old).clock }
        ensures room { (view_of self.old).clock < 2 ^ 64 - 1 → 0 < room_in self.old → IsTrue result }
        ensures left { room_in self.old ≤ room_in self.new + 1 }
    {
        if self.count == usize::MAX || self.changes.reserve(1).is_err() {
            self.idle();
            return false;
        }
        let change = Change::Cut(len);
        let idle = self.idle;
        self.changes.push_reserved(Noted { idle, change });
        self.bytes.truncate(len);
        self.idle = 0;
        self.count += 1;
        true
    }

    /// Makes what was written last.
    pub fn sync(&mut self) -> bool
        ensures rests { Rests (view_of self.old) (view_of self.new) }
        ensures done { OnTrue result (DidSync (view_of self.old) (view_of self.new)) }
        ensures not_done { OnFalse result (DidNothing (view_of self.old) (view_of self.new)) }
        ensures noted { (view_of self.new).clock ≡ one_more (view_of self.old).clock }
        ensures room { (view_of self.old).clock < 2 ^ 64 - 1 → 0 < room_in self.old → IsTrue result }
        ensures left { room_in self.old ≤ room_in self.new + 1 }
    {
        if self.count == usize::MAX || self.changes.reserve(1).is_err() {
            self.idle();
            return false;
        }
        let change = Change::Sync;
        let idle = self.idle;
        self.changes.push_reserved(Noted { idle, change });
        self.idle = 0;
        self.count += 1;
        true
    }
}
