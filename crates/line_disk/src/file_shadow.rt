//! What is known of a file by the calls that were made on it.

ghost use Rattle.std.specs.Prelude.{◌≡◌, ◌↔◌, ◌∷◌, ◌++◌, [], ◌+◌, ◌-◌, ◌^◌, ◌<◌, ◌≤◌, false, IsTrue, List, ℕ, length, vec_capacity, take, drop, if◌then◌else◌};
ghost use Rattle.line_disk.specs.Device.{held, any_failed, Written, NotWritten, CutTo, NotCut, Synced, NotSynced};
ghost use Rattle.line_disk.specs.Disk.{written};
ghost use Rattle.line_disk.specs.working.Log.{steps_in};
ghost use Rattle.std.proofs.Props.{props};

use crate::log::{Bytes, Log, Step};
use crate::overwrite::overwrite;
use std::snapshot::Snapshot;

/// What was read of a file when it was opened, and the calls since. What is said here holds whatever stood behind the bytes that
/// were read.
pub(crate) struct FileShadow {
    read: Snapshot<Vec<u8>>,
    /// How many bytes stood behind those that were read.
    unread: Snapshot<usize>,
    /// The first bytes of what the file holds, with which reads are compared.
    copy: Vec<u8>,
    pub len: usize,
    log: Log,
    /// A call that changes the file failed, so that no more is known of it.
    pub failed: bool,
    ghost shown: { failed ≡ false → (behind : List ℕ) → length behind ≡ unread.value → copy.items ≡ take (length copy.items) (held (read.value.items ++ behind) (steps_in log)) } by { Prim.hlevel props },
    ghost size: { failed ≡ false → (behind : List ℕ) → length behind ≡ unread.value → len ≡ length (held (read.value.items ++ behind) (steps_in log)) } by { Prim.hlevel props },
    ghost any: { failed ≡ any_failed (steps_in log) },
}

impl Drop for FileShadow {
    fn drop(self) {
        let FileShadow {
            read: _,
            unread: _,
            copy: _,
            len: _,
            log: _,
            failed: _,
        } = self;
    }
}

/// Makes a write on a copy of the first bytes of a file, and leaves out what stands behind the copy. Where memory is wanting for it
/// the copy ends where the write begins.
fn write_copy(copy: &mut Vec<u8>, at: usize, bytes: &[u8])
    ensures front { (file : List ℕ) → at ≤ length file → copy.old.items ≡ take (length copy.old.items) file → copy.new.items ≡ take (length copy.new.items) (written file at bytes.now) }
    ensures before { take at copy.new.items ≡ take at copy.old.items }
    ensures behind { length copy.old.items < at → copy.new.items ≡ copy.old.items }
    ensures room { at ≤ length copy.old.items → at + length bytes.now ≤ vec_capacity copy.old → copy.new.items ≡ written copy.old.items at bytes.now }
{
    if at > copy.len() {
        return;
    }
    if overwrite(copy, at, bytes).is_err() {
        copy.truncate(at);
    }
}

impl FileShadow {
    ghost use Rattle.line_disk.specs.working.FileShadow.{read_of, unread_of, first_of, calls_of};
    ghost use Rattle.line_disk.specs.Device.{Unread};

    /// Of a file of this length these first bytes were read.
    pub fn new(read: Vec<u8>, len: usize) -> FileShadow
        requires { length read.items ≤ len }
        ensures read { read_of result ≡ read.items }
        ensures unread { unread_of result ≡ len - length read.items }
        ensures calls { calls_of result ≡ [] }
        ensures copy { result.copy.items ≡ read.items }
    {
        let unread = len - read.len();
        FileShadow {
            read: Snapshot::of(&read),
            unread: Snapshot::of(&unread),
            copy: read,
            len,
            log: Log::Empty,
            failed: false,
        }
    }

    /// Whether there is a copy of so many bytes at this offset, and no call has failed.
    pub fn covers(&self, at: usize, n: usize) -> bool
        ensures { IsTrue result ↔ ((self.now.failed ≡ false) × (at + n ≤ length self.now.copy.items)) }
    {
        !self.failed && at <= self.copy.len() && n <= self.copy.len() - at
    }

    /// Whether the file is known to have these bytes at this offset.
    pub fn has(&self, at: usize, bytes: &[u8]) -> bool
        ensures known { IsTrue result → (behind : List ℕ) → length behind ≡ unread_of self.now → bytes.now ≡ take (length bytes.now) (drop at (held (read_of self.now ++ behind) (calls_of self.now))) }
        // Where no call has failed, bytes of the copy are known.
        ensures of_copy { self.now.failed ≡ false → at + length bytes.now ≤ length self.now.copy.items → bytes.now ≡ take (length bytes.now) (drop at self.now.copy.items) → IsTrue result }
    {
        self.covers(at, bytes.len()) && bytes == &self.copy[at..at + bytes.len()]
    }

    /// A write was made, and is done or failed.
    pub fn wrote(&mut self, at: usize, bytes: &[u8], done: bool)
        requires inside { at ≤ self.old.len }
        requires fits { at + length bytes.now < 2 ^ 64 }
        requires going { self.old.failed ≡ false }
        ensures first { (unread : Unread) → first_of unread self.new ≡ first_of unread self.old }
        ensures calls { calls_of self.new ≡ (if done then Written at bytes.now else NotWritten at (length bytes.now)) ∷ calls_of self.old }
        ensures before { take at self.new.copy.items ≡ take at self.old.copy.items }
        ensures copy { IsTrue done → at ≤ length self.old.copy.items → at + length bytes.now ≤ vec_capacity self.old.copy → self.new.copy.items ≡ written self.old.copy.items at bytes.now }
    {
        if done {
            write_copy(&mut self.copy, at, bytes);
            self.len = self.len.max(at + bytes.len());
            self.log
                .add(&Step::Written(at, Snapshot::of(&Bytes::of(bytes))));
        } else {
            self.failed = true;
            self.log.add(&Step::NotWritten(at, bytes.len()));
        }
    }

    /// A cut was made, and is done or failed.
    pub fn cut(&mut self, len: usize, done: bool)
        requires going { self.old.failed ≡ false }
        ensures first { (unread : Unread) → first_of unread self.new ≡ first_of unread self.old }
        ensures calls { calls_of self.new ≡ (if done then CutTo len else NotCut len) ∷ calls_of self.old }
        ensures copy { self.new.copy.items ≡ (if done then take len self.old.copy.items else self.old.copy.items) }
    {
        if done {
            self.copy.truncate(len);
            self.len = self.len.min(len);
            self.log.add(&Step::CutTo(len));
        } else {
            self.failed = true;
            self.log.add(&Step::NotCut(len));
        }
    }

    /// A sync was made, and is done or failed.
    pub fn synced(&mut self, done: bool)
        requires going { self.old.failed ≡ false }
        ensures first { (unread : Unread) → first_of unread self.new ≡ first_of unread self.old }
        ensures calls { calls_of self.new ≡ (if done then Synced else NotSynced) ∷ calls_of self.old }
        ensures copy { self.new.copy.items ≡ self.old.copy.items }
    {
        if done {
            self.log.add(&Step::Synced);
        } else {
            self.failed = true;
            self.log.add(&Step::NotSynced);
        }
    }
}
