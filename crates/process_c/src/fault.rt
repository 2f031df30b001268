//! Why a call is refused, and its number.

ghost use Rattle.std.specs.Prelude.{◌≡◌};
ghost use Rattle.process.specs.declared.fault.ProcessFault.TheVariants.{Memory};
ghost use Rattle.process_c.specs.Numbers.{number_of, number_of_refusal};
ghost use Rattle.process_c.specs.declared.fault.Fault.TheVariants.{Refused};

use process::ProcessFault;
use std::alloc::AllocError;

/// Why a call is refused. Where several apply, the first of this list is answered, but for `Memory`, which may come in place of any.
#[derive(Clone, Copy, Debug, PartialEq, Eq)]
pub enum Fault {
    /// The first text that was handed over is that of no process.
    State,
    /// What was handed over beside it is not the text of a message, a start, a retirement or a state that was kept, whichever the call takes.
    Text,
    /// The bytes are no name.
    Name,
    /// The process refuses, or memory is wanting.
    Refused(ProcessFault),
}

impl Fault {
    /// The number by which the caller is told, -1 and below.
    pub fn number(self) -> i64
        ensures { result ≡ number_of self }
    {
        match self {
            Fault::State => -2,
            Fault::Text => -3,
            Fault::Name => -4,
            Fault::Refused(fault) => number_of_refusal(fault),
        }
    }
}

fn number_of_refusal(fault: ProcessFault) -> i64
    ensures { result ≡ number_of_refusal fault }
{
    match fault {
        ProcessFault::Memory => -1,
        ProcessFault::SelfTarget => -5,
        ProcessFault::Taken => -6,
        ProcessFault::NotWaiting => -7,
        ProcessFault::Older => -8,
        ProcessFault::Newer => -9,
        ProcessFault::Worn => -10,
        ProcessFault::NothingOwned => -11,
        ProcessFault::ClockFull => -12,
        ProcessFault::TooDeep => -13,
        ProcessFault::Overlap => -14,
        ProcessFault::OtherProcess => -15,
        ProcessFault::NotKnown => -16,
    }
}

impl From<ProcessFault> for Fault {
    ghost from_gives = { λ fault e. e ≡ Refused fault };

    fn from(fault: ProcessFault) -> Fault {
        Fault::Refused(fault)
    }
}

impl From<AllocError> for Fault {
    ghost from_gives = { λ _ e. e ≡ Refused Memory };

    fn from(_error: AllocError) -> Fault {
        Fault::Refused(ProcessFault::Memory)
    }
}
