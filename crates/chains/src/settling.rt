//! The tests of a settlement.

ghost use Rattle.std.specs.Prelude.{◌≡◌, OnOk, IfErr, Some, None};
ghost use Rattle.std.specs.Fmt.{decimal};
ghost use Rattle.chains.specs.Held.{held_of};
ghost use Rattle.chains.specs.Turns.{PassesSettle};
ghost use Rattle.chains.specs.Answers.{IsSettleRefusal};
ghost use Rattle.chains.specs.working.Testing.{IsRefusalWith};

use crate::admission::{REPORT_LIMIT, number_text, out_of_memory};
use crate::chains::Chains;
use crate::failed::first_unknown;
use crate::refusal::No;
use report_line::{Code, Name, Names};
use std::alloc::Global;

/// A refusal that has nothing to name.
fn unnamed(code: Code) -> No
    ensures { result ≡ record { code = code; name = None; value = None } }
{
    No {
        code,
        name: None,
        value: None,
    }
}

/// A refusal of a process that is unknown.
fn unknown(name: Name) -> No
    ensures { result ≡ record { code = Code.UnknownProcess; name = Some name; value = None } }
{
    No {
        code: Code::UnknownProcess,
        name: Some(name),
        value: None,
    }
}

/// A refusal with a number, if there is memory for it.
fn with_number(alloc: Global, code: Code, number: u32) -> No
    ensures { IsRefusalWith result code number }
{
    match number_text(alloc, number) {
        Ok(text) => No {
            code,
            name: None,
            value: Some(text),
        },
        Err(_) => out_of_memory(),
    }
}

impl Chains {
    /// Tests a settlement on the line of these failed processes at this front: that something has begun, the processes are known, the
    /// front is the present one, and there is room for one more line. It takes memory for the value of a refusal alone.
    pub fn may_settle(&self, front: u32, names: &Names) -> Result<(), No>
        ensures ok { OnOk result (PassesSettle (held_of self.now) front names.now) }
        ensures err { IfErr result (IsSettleRefusal (held_of self.now) front names.now) }
    {
        if self.is_empty() {
            return Err(unnamed(Code::NothingBegun));
        }
        match first_unknown(self, names) {
            Some(name) => return Err(unknown(name)),
            None => {}
        }
        if front != self.front() {
            return Err(with_number(self.alloc(), Code::OtherFront, self.front()));
        }
        if self.front() >= REPORT_LIMIT {
            return Err(with_number(self.alloc(), Code::Full, REPORT_LIMIT));
        }
        Ok(())
    }
}
