//! What a session rests at.

use crate::kind::SessionEndKind;

/// What has to come before a session can go on.
#[derive(Clone, Copy)]
pub enum Rest {
    /// Bytes of the client, or its end: its link had none by now.
    Read,
    /// The client takes more of what was written.
    Write,
    /// Nothing: no line is there, and `receive` reads on.
    Receive,
    /// Nothing: `answer` goes on.
    Due,
    /// Another coordinator with a pass of its own: this one makes no more turns, or the pass is not of it.
    Renewal,
    /// Nothing more: the session ended so. Its link was not ended.
    Over(SessionEndKind),
}
