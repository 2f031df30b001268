//! Why a session ended.

/// Why a session ended.
#[derive(Clone, Copy)]
pub enum SessionEndKind {
    /// All input was read, and each line answered.
    End,
    /// The client said that it is done. What followed was not handled.
    Bye,
    /// More than 8,192 bytes came without LF. The lines before them were answered.
    TooLong,
    /// No turn was left: all 65,536 since the desk was opened were made. The next line and what followed it was not handled.
    Worn,
    /// Memory was wanting for the lines of the bytes that were read, or for a turn: at a desk, for the reply to a question for a
    /// state. That line and what followed it was not handled.
    Memory,
    /// A read failed. The lines before it were answered.
    ReadFailed,
    /// A write failed, or replies could not be handed on. What was to follow was not handled.
    WriteFailed,
    /// The input did not end within the reads that a session makes. The lines that were read were answered.
    Endless,
    /// The pass is of another coordinator, which has seen a longer front or a later turn. That line and what followed it was not
    /// handled.
    Foreign,
}

/// How a session ended.
#[derive(Clone, Copy)]
pub struct SessionEnd {
    /// Why it ended.
    pub kind: SessionEndKind,
    /// How many lines were written whole, and where each is handed on by itself, handed on. An ending line counts only where it was
    /// handed on, however replies are.
    pub replies: u64,
}
