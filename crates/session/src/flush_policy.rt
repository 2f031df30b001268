//! When replies are handed on.

/// When the replies to lines are handed on.
#[derive(Clone, Copy)]
pub enum FlushPolicy {
    /// Each reply before the turn of the next line is made, or an ending line is written.
    EachReply,
    /// The replies to all lines of a read before the next read.
    EachRead,
}
