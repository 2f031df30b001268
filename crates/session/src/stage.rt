//! Where a session stands between two calls.

use crate::kind::SessionEndKind;

/// Where a session stands between two calls.
#[derive(Clone, Copy)]
pub(crate) enum Stage {
    /// All replies were handed on.
    Listening,
    /// All but the last reply were handed on.
    Replying,
    /// It ends so, once the last line of its text is handed on.
    Ending(SessionEndKind),
    /// It ended so.
    Ended(SessionEndKind),
}
