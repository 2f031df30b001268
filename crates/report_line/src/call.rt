//! What a client asks.

ghost use Rattle.std.specs.Prelude.{◌≡◌, IfOk};

use crate::marked::MarkedReport;
use crate::name::Name;
use crate::row::Names;
use crate::shared::Shared;
use std::alloc::{AllocError, Global};

/// What a line asks for.
#[derive(Drop)]
pub enum Call {
    /// A process reports an event.
    Report(MarkedReport),
    /// Where do all processes recover from, once these have failed?
    Line(Names),
    /// Where would all processes recover from, had every one of them failed? Checkpoints before that are obsolete.
    Garbage,
    /// Return to the line of this front, once these have failed: what is not at or before it is undone.
    Settle { front: u32, names: Names },
    /// What is kept of this process?
    State(Shared<Name>),
    /// The client is done.
    Bye,
    /// A line that is no call, by the number of what is wrong with it.
    Bad(u8),
    /// A line that memory did not suffice to read.
    Unread,
}

impl Call {
    /// The same call once more. It shares a report's block and that of a name.
    pub fn copy(&self, alloc: Global) -> Result<Call, AllocError>
        ensures { IfOk result (λ c. c ≡ self.now) }
    {
        match self {
            Call::Report(report) => Ok(Call::Report(report.share()?)),
            Call::Line(names) => Ok(Call::Line(names.copy(alloc)?)),
            Call::Garbage => Ok(Call::Garbage),
            Call::Settle { front, names } => Ok(Call::Settle {
                front: *front,
                names: names.copy(alloc)?,
            }),
            Call::State(name) => Ok(Call::State(name.share()?)),
            Call::Bye => Ok(Call::Bye),
            Call::Bad(number) => Ok(Call::Bad(*number)),
            Call::Unread => Ok(Call::Unread),
        }
    }
}
