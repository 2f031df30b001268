//! What stands on the line of a process.

use crate::scene::Spot;
use crate::telling::Said;

/// What a step is.
#[derive(Clone, Copy, PartialEq, Eq)]
pub(crate) enum Kind {
    Birth,
    Checkpoint,
    /// A present state that stands.
    Present,
    /// A present state that a later report took away.
    Passed,
    Retirement,
    /// A step that is reported, and makes no element: a fork or an absorption.
    Report,
    /// A step that is not reported.
    Event,
}

/// A step of a process.
#[derive(Clone, Copy)]
pub(crate) struct Mark {
    pub(crate) spot: Spot,
    pub(crate) kind: Kind,
    /// The number of the element, or 0 for what is none.
    pub(crate) element: u32,
    /// Whether a settlement undid it.
    pub(crate) is_undone: bool,
    /// Its stamp and the line of its report.
    pub(crate) said: Said,
}
