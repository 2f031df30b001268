//! What a client is told.

ghost use Rattle.std.specs.Prelude.{◌≡◌, IfOk};

use crate::code::Code;
use crate::name::Name;
use crate::text::Text;
use std::alloc::{AllocError, Global};

/// Whether a report whose writing failed is in the file.
#[derive(Clone, Copy, Debug, PartialEq, Eq)]
pub enum Outcome {
    /// It is not.
    Before,
    /// It may be.
    Unknown,
    /// It is not, for writing was stopped by an earlier failure.
    Stopped,
}

/// The answer to one call.
#[derive(Drop)]
pub enum Reply {
    /// The report was accepted, and the front counts it.
    Accepted(u32),
    /// The report was accepted before, and the front counts it.
    Old(u32),
    /// The call was refused, for what is at fault where there is something to name.
    No {
        code: Code,
        name: Option<Name>,
        value: Option<Text>,
    },
    /// The line was no call.
    Bad(u8),
    /// The device failed.
    Fail(Outcome),
    /// The certificate that was asked for.
    Line(Text),
    /// What is kept of a process: how many reports with a number are accepted of it, how many elements it has, whether it
    /// lives, and the text of its registered id (`0` once it retired).
    State {
        name: Name,
        reports: u32,
        elements: u32,
        live: bool,
        id: Text,
    },
    /// All returned to the line: the number of settlements, and the front, which counts this one.
    Settled {
        epoch: u32,
        front: u32,
    },
    /// The client is done.
    Bye,
    /// A certificate was asked for at this front. What is shown is found later, so this reply is never written.
    Taken(u32),
}

// The name once more, where there is one.
fn name_copy(name: &Option<Name>) -> Option<Name>
    ensures { result ≡ name.now }
{
    match name {
        Some(name) => Some(name.copy()),
        None => None,
    }
}

// The text once more, where there is one.
fn text_copy(alloc: Global, text: &Option<Text>) -> Result<Option<Text>, AllocError>
    ensures { IfOk result (λ t. t ≡ text.now) }
{
    match text {
        Some(text) => Ok(Some(text.copy(alloc)?)),
        None => Ok(None),
    }
}

impl Reply {
    /// The same reply once more.
    pub fn copy(&self, alloc: Global) -> Result<Reply, AllocError>
        ensures { IfOk result (λ r. r ≡ self.now) }
    {
        match self {
            Reply::Accepted(front) => Ok(Reply::Accepted(*front)),
            Reply::Old(front) => Ok(Reply::Old(*front)),
            Reply::No { code, name, value } => {
                let value = text_copy(alloc, value)?;
                Ok(Reply::No {
                    code: *code,
                    name: name_copy(name),
                    value,
                })
            }
            Reply::Bad(number) => Ok(Reply::Bad(*number)),
            Reply::Fail(outcome) => Ok(Reply::Fail(*outcome)),
            Reply::Line(text) => Ok(Reply::Line(text.copy(alloc)?)),
            Reply::State {
                name,
                reports,
                elements,
                live,
                id,
            } => Ok(Reply::State {
                name: name.copy(),
                reports: *reports,
                elements: *elements,
                live: *live,
                id: id.copy(alloc)?,
            }),
            Reply::Settled { epoch, front } => Ok(Reply::Settled {
                epoch: *epoch,
                front: *front,
            }),
            Reply::Bye => Ok(Reply::Bye),
            Reply::Taken(front) => Ok(Reply::Taken(*front)),
        }
    }
}
