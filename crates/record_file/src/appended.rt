//! What an append answers.

/// How far an append came.
#[derive(Clone, Copy, Debug, PartialEq, Eq)]
pub enum Appended {
    /// The line is in the file, and no crash takes it out.
    Done,
    /// The device failed, and the line is not in the file.
    Before,
    /// The device failed, and the line may be in the file.
    Unknown,
    /// An earlier append was answered Before or Unknown. The device was not called.
    Stopped,
}
