//! What callers hand over.

ghost use Rattle.std.specs.Prelude.{◌≡◌, IsTrue, false, MatchResult};
ghost use Rattle.report_line.specs.Names.{is_name};
ghost use Rattle.process_c.specs.Texts.{IsStateOf, IsMessageOf, IsStartOf, IsRetirementOf};
ghost use Rattle.process_c.specs.working.Causes.{unread, IsUnreadState, IsUnreadText};

use crate::fault::Fault;
use process::{Message, Process, ProcessFault, Retirement, Start};
use report_line::{LineFault, Name};
use std::alloc::Global;

fn unread(outside: Fault, fault: LineFault) -> Fault
    ensures { result ≡ unread outside fault }
{
    match fault {
        LineFault::Grammar => outside,
        LineFault::Memory => Fault::Refused(ProcessFault::Memory),
    }
}

/// The process that this is the text of.
pub fn read_state(alloc: Global, text: &[u8]) -> Result<Process, Fault>
    ensures { MatchResult result (λ p. IsStateOf p text.now) (IsUnreadState text.now) }
{
    match Process::parse(alloc, text) {
        Ok(process) => Ok(process),
        Err(fault) => Err(unread(Fault::State, fault)),
    }
}

/// The state that was kept, and that this is the text of.
pub fn read_kept(alloc: Global, text: &[u8]) -> Result<Process, Fault>
    ensures { MatchResult result (λ p. IsStateOf p text.now) (IsUnreadText IsStateOf text.now) }
{
    match Process::parse(alloc, text) {
        Ok(process) => Ok(process),
        Err(fault) => Err(unread(Fault::Text, fault)),
    }
}

/// The message that this is the text of.
pub fn read_message(alloc: Global, text: &[u8]) -> Result<Message, Fault>
    ensures { MatchResult result (λ m. IsMessageOf m text.now) (IsUnreadText IsMessageOf text.now) }
{
    match Message::parse(alloc, text) {
        Ok(message) => Ok(message),
        Err(fault) => Err(unread(Fault::Text, fault)),
    }
}

/// The start that this is the text of.
pub fn read_start(alloc: Global, text: &[u8]) -> Result<Start, Fault>
    ensures { MatchResult result (λ s. IsStartOf s text.now) (IsUnreadText IsStartOf text.now) }
{
    match Start::parse(alloc, text) {
        Ok(start) => Ok(start),
        Err(fault) => Err(unread(Fault::Text, fault)),
    }
}

/// The retirement that this is the text of.
pub fn read_retirement(alloc: Global, text: &[u8]) -> Result<Retirement, Fault>
    ensures { MatchResult result (λ r. IsRetirementOf r text.now) (IsUnreadText IsRetirementOf text.now) }
{
    match Retirement::parse(alloc, text) {
        Ok(retirement) => Ok(retirement),
        Err(fault) => Err(unread(Fault::Text, fault)),
    }
}

/// The name of these bytes.
pub fn read_name(bytes: &[u8]) -> Result<Name, Fault>
    ensures { MatchResult result (λ n. (n ≡ bytes.now) × IsTrue (is_name bytes.now)) (λ fault. (fault ≡ Fault.Name) × (is_name bytes.now ≡ false)) }
{
    match Name::from_bytes(bytes) {
        Some(name) => Ok(name),
        None => Err(Fault::Name),
    }
}
