//! How far a record file is read when it is opened.

ghost use Rattle.std.specs.Prelude.{◌<◌, ◌≤◌, length};

use crate::reading::{MAX_RECORD, OPEN, begins_with_magic, split_record};
use line_disk::Reach;

/// A file of so many bytes or fewer counts as new: it has no record.
const NEW: usize = 9;

/// Wants a record file as far as a store reads it when it opens: up to the piece with its closed gate, or with the gate behind
/// which no record stands. Of a file that is foreign it wants the first piece.
#[derive(Drop)]
pub struct RecordReach {
    /// Where the gate stands behind the records that were passed.
    gate: usize,
    ghost behind_header: { 8 ≤ gate },
}

impl RecordReach {
    /// Of a file of which nothing was read.
    pub fn new() -> RecordReach {
        RecordReach { gate: 8 }
    }
}

/// Passes over the records behind open gates from this gate on, and says where the gate stands at which that stops: one that is
/// closed, or behind which no whole record stands in these bytes.
fn pass_records(bytes: &[u8], gate: usize) -> usize
    requires header { 8 ≤ length bytes.now }
    requires gate { gate < length bytes.now }
    ensures inside { result < length bytes.now }
    ensures on { gate ≤ result }
{
    let version = bytes[7];
    let mut at = gate;
    while bytes[at] == OPEN {
        let (_, after) = bytes.split_at(at + 1);
        let Some((_, _, behind)) = split_record(version, after) else {
            return at;
        };
        at = bytes.len() - behind.len();
    }
    at
}

impl Reach for RecordReach {
    fn is_new(&self, len: usize) -> bool {
        len <= NEW
    }

    fn wants_more(&mut self, bytes: &[u8]) -> bool {
        if bytes.len() <= self.gate {
            return true;
        }
        if !begins_with_magic(bytes) {
            return false;
        }
        self.gate = pass_records(bytes, self.gate);
        bytes[self.gate] == OPEN && bytes.len() - self.gate <= MAX_RECORD
    }

    /// Up to the closed gate, if there is one.
    fn whole(&self, bytes: &[u8]) -> Option<usize> {
        if bytes.len() <= self.gate || !begins_with_magic(bytes) {
            return None;
        }
        let gate = pass_records(bytes, self.gate);
        if bytes[gate] == OPEN {
            None
        } else {
            Some(gate + 1)
        }
    }
}
