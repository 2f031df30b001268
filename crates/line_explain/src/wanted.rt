//! What stands behind the first word of a line.

/// What a word has to be.
#[derive(Clone, Copy, Debug, PartialEq, Eq)]
pub enum Wanted {
    /// The name of a process.
    Name,
    /// A number from 1.
    Number,
    /// A stamp.
    Stamp,
    /// An id.
    Id,
    /// Names parted by commas, or `-` for none.
    Names,
}
