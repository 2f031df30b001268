//! Why a call is refused.

ghost use Rattle.std.specs.Prelude.{◌≡◌};
ghost use Rattle.report_line.specs.Replies.{code_number};

/// Why a call is refused.
#[derive(Clone, Copy, Debug, PartialEq, Eq)]
pub enum Code {
    /// No process has begun.
    NothingBegun,
    /// Another process began as the root.
    OtherRoot,
    /// No process has that name.
    UnknownProcess,
    /// The process retired.
    Ended,
    /// The number is not the next of its process.
    WrongNumber,
    /// No retirement of that process waits for the one that absorbs it.
    NotWaiting,
    /// The id is not that of its process.
    WrongId,
    /// The events did not grow where the id owns.
    NotGrown,
    /// The child's name is that of a known process.
    NameTaken,
    /// The two ids of a fork are not two parts of the id that is forked.
    WrongParts,
    /// The target of a retirement is unknown, or the process itself.
    WrongTarget,
    /// The events are not at or above those of the retirement.
    NotJoined,
    /// No more reports, or no more processes, fit.
    Full,
    /// Memory ran out.
    OutOfMemory,
    /// The front is another one.
    OtherFront,
    /// The report is of another epoch.
    OtherEpoch,
}

impl Code {
    /// The number that a reply writes for the refusal.
    pub fn number(self) -> u8
        ensures { result ≡ code_number self }
    {
        match self {
            Code::NothingBegun => 14,
            Code::OtherRoot => 13,
            Code::UnknownProcess => 3,
            Code::Ended => 4,
            Code::WrongNumber => 5,
            Code::NotWaiting => 11,
            Code::WrongId => 6,
            Code::NotGrown => 7,
            Code::NameTaken => 8,
            Code::WrongParts => 9,
            Code::WrongTarget => 10,
            Code::NotJoined => 12,
            Code::Full => 15,
            Code::OutOfMemory => 16,
            Code::OtherFront => 18,
            Code::OtherEpoch => 19,
        }
    }
}
