//! A line by names.

use chains::Position;
use report_line::Name;

/// A process, and where it is to return to.
#[derive(Drop)]
pub struct NamedPosition {
    /// The process.
    pub name: Name,
    /// Its position, by its elements as they are numbered in what the world reported.
    pub position: Position,
}
