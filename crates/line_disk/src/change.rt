//! The calls of a disk in memory that are noted one by one.

/// A call that may change what a crash leaves, by what it did.
#[derive(Drop)]
pub(crate) enum Change {
    /// The offset, and the bytes.
    Write(usize, Vec<u8>),
    Cut(usize),
    Sync,
}

/// A change, and how many calls since the change before it did nothing.
#[derive(Drop)]
pub(crate) struct Noted {
    pub idle: usize,
    pub change: Change,
}
