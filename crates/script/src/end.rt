//! How a script ended.

ghost use Rattle.std.specs.Prelude.{◌≡◌};
ghost use Rattle.script.specs.Causes.{cause_words, fault_words};

use driver::StepFault;

/// Why the step of a line was refused.
#[derive(Clone, Copy, Debug, PartialEq, Eq)]
pub enum Cause {
    /// The line is no step; or it is the first one and does not begin a world, or a later one and begins another.
    Grammar,
    /// The world refuses the step.
    Fault(StepFault),
}

/// How a script ended.
#[derive(Clone, Copy, Debug, PartialEq, Eq)]
pub enum End {
    /// Each step was taken.
    Done,
    /// The step of the line of this number, counted from 1, was refused.
    Refused { step: u64, cause: Cause },
    /// Memory did not suffice to go on.
    Memory,
}

// The words for a fault.
fn words_for(fault: StepFault) -> &'static [u8]
    ensures { result.now ≡ fault_words fault }
{
    match fault {
        StepFault::Unknown => b"unknown process".as_slice(),
        StepFault::Retired => b"retired".as_slice(),
        StepFault::SelfTarget => b"self target".as_slice(),
        StepFault::Taken => b"name taken".as_slice(),
        StepFault::NoMessage => b"no message".as_slice(),
        StepFault::NotWaiting => b"not waiting".as_slice(),
        StepFault::NotClosed => b"not closed".as_slice(),
        StepFault::ClockFull => b"clock full".as_slice(),
        StepFault::TooDeep => b"too deep".as_slice(),
        StepFault::Memory => b"memory".as_slice(),
    }
}

impl Cause {
    /// The words for the cause.
    pub fn words(self) -> &'static [u8]
        ensures { result.now ≡ cause_words self }
    {
        match self {
            Cause::Grammar => b"grammar".as_slice(),
            Cause::Fault(fault) => words_for(fault),
        }
    }
}
