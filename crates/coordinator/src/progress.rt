//! How far a coordinator has come.

/// How far a coordinator has come.
#[derive(Clone, Copy, Debug, Drop)]
pub struct Progress {
    /// The number of turns.
    pub turns: u32,
    /// The front: how many lines were accepted.
    pub front: u32,
    /// How many processes are known.
    pub processes: u32,
    /// Whether the file failed, so that no later line is recorded.
    pub stopped: bool,
}
