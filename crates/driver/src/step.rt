//! What a world is asked to do.

ghost use Rattle.std.specs.Prelude.{◌≡◌};

use report_line::Name;

/// What a process is to do.
#[derive(Drop)]
pub enum StepRequest {
    /// Work on.
    Work,
    /// Take a checkpoint.
    Check,
    /// Report its present state.
    Present,
    /// Send a message of this name.
    Send { message: Name },
    /// Receive the message.
    Receive { message: Name },
    /// Make a child of this name.
    Fork { child: Name },
    /// End, with the stamp going to the target.
    Retire { target: Name },
    /// Take up the stamp of a process that retired into it.
    Absorb { retired: Name },
}

/// One step that is asked.
#[derive(Drop)]
pub struct Step {
    pub process: Name,
    pub request: StepRequest,
}

impl StepRequest {
    /// A copy. It takes no memory.
    pub fn copy(&self) -> StepRequest
        ensures { result ≡ self.now }
    {
        match self {
            StepRequest::Work => StepRequest::Work,
            StepRequest::Check => StepRequest::Check,
            StepRequest::Present => StepRequest::Present,
            StepRequest::Send { message } => StepRequest::Send {
                message: message.copy(),
            },
            StepRequest::Receive { message } => StepRequest::Receive {
                message: message.copy(),
            },
            StepRequest::Fork { child } => StepRequest::Fork {
                child: child.copy(),
            },
            StepRequest::Retire { target } => StepRequest::Retire {
                target: target.copy(),
            },
            StepRequest::Absorb { retired } => StepRequest::Absorb {
                retired: retired.copy(),
            },
        }
    }
}

impl Step {
    /// A copy. It takes no memory.
    pub fn copy(&self) -> Step
        ensures { result ≡ self.now }
    {
        Step {
            process: self.process.copy(),
            request: self.request.copy(),
        }
    }
}
