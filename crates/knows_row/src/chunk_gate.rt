//! Gates in front of runs.

/// What is called before a run of places is looked at.
pub trait ChunkGate {
    /// The run of this number, counted from 1, comes next.
    fn before_chunk(&self, run: u64);
}

/// A gate that does nothing.
#[derive(Clone, Copy, Debug, Drop)]
pub struct OpenChunks;

impl ChunkGate for OpenChunks {
    fn before_chunk(&self, _run: u64) {}
}
