//! Where processes stand in a recovery line.

/// A position of a process.
#[derive(Clone, Copy, Debug, PartialEq, Eq)]
pub enum Position {
    /// At 0 it is unborn; at k, counted from 1, at its element k.
    At(u32),
    /// It ended, and what it had went to another process.
    Retired,
}

/// A position of a process by its number, counted from 0 in order of birth.
#[derive(Clone, Copy, Debug, PartialEq, Eq)]
pub struct Place {
    pub process: u32,
    pub position: Position,
}
