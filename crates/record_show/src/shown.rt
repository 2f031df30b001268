//! What is shown of a record file.

use report_line::{Name, Text};

/// Whether a process lives.
#[derive(Clone, Copy, Debug, PartialEq, Eq)]
pub enum ShownState {
    /// It lives.
    Live,
    /// It retired, and its retirement waits.
    Waiting,
    /// It retired, and its retirement was absorbed.
    Absorbed,
}

/// What is shown of a process.
#[derive(Drop)]
pub struct ShownProcess {
    /// Its name.
    pub name: Name,
    /// Whether it lives.
    pub state: ShownState,
    /// How many reports with a number are accepted of it.
    pub reports: u32,
    /// How many elements it has.
    pub elements: u32,
    /// How many pairs are around the deepest leaf of its id. The id is `0` once it retired.
    pub depth: usize,
    /// How many pairs and leaves its id has.
    pub size: usize,
    /// The line of the report that made its last element, as it stands in its record.
    pub last: Text,
    /// The process into which it retired in vain: it was not absorbed, and that process retired, too.
    pub lost_in: Option<Name>,
}

/// What is shown of a file beside its processes.
#[derive(Clone, Copy, Debug, PartialEq, Eq)]
pub struct ShownFile {
    /// The number of its version: 1 or 2.
    pub version: usize,
    /// How many records it has.
    pub records: usize,
    /// The front.
    pub front: u32,
    /// The present epoch.
    pub epoch: u32,
    /// How many bytes stand behind its closed gate.
    pub tail: usize,
}
