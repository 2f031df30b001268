//! The calls on a file, as clauses see them. A log of any length takes no memory but for a tag.

ghost use Rattle.std.specs.Prelude.{◌≡◌, ◌∷◌};

use std::snapshot::Snapshot;

/// Bytes that clauses alone see.
#[derive(Drop)]
pub(crate) enum Bytes {
    End,
    Then(Snapshot<u8>, Snapshot<Bytes>),
}

impl Bytes {
    ghost use Rattle.line_disk.specs.working.Log.{bytes_in};

    pub fn of(bytes: &[u8]) -> Bytes
        ensures { bytes_in result ≡ bytes.now }
    {
        let mut shown = Bytes::End;
        let mut i = bytes.len();
        while i > 0 {
            i -= 1;
            let behind = Snapshot::of(&shown);
            shown = Bytes::Then(Snapshot::of(&bytes[i]), behind);
        }
        shown
    }
}

/// A call that changes a file, or a sync, by its answer.
#[derive(Drop)]
pub(crate) enum Step {
    /// The offset, and the bytes.
    Written(usize, Snapshot<Bytes>),
    CutTo(usize),
    Synced,
    /// The offset, and how many bytes. This call and those below failed.
    NotWritten(usize, usize),
    NotCut(usize),
    NotSynced,
}

/// Calls, the newest first.
#[derive(Drop)]
pub(crate) enum Log {
    Empty,
    Then(Snapshot<Step>, Snapshot<Log>),
}

impl Log {
    ghost use Rattle.line_disk.specs.working.Log.{steps_in, done_of};

    pub fn add(&mut self, step: &Step)
        ensures { steps_in self.new ≡ done_of step.now ∷ steps_in self.old }
    {
        let earlier = Snapshot::of(&*self);
        *self = Log::Then(Snapshot::of(step), earlier);
    }
}
