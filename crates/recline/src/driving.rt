//! The command `drive`.

ghost use Rattle.std.specs.Prelude.{◌≡◌, MatchResult};
ghost use Rattle.recline.specs.Outcome.{Tells};
ghost use Rattle.recline.specs.Driving.{Drives, IsDrivenIn, IsDrivenOver, numbered_by, script_fault, script_status};
ghost use Rattle.recline.specs.working.Driving.{IsIn, ReadsAll, ReadsSome, line_in, script_of, steps_of};

use crate::commented::{ScriptForm, line_of, without_comments};
use crate::telling::{tell, tell_refusal, write_all};
use client_link::{Link, LinkFault};
use script::{End, drive};
use std::alloc::Global;

/// How many reads a script, a certificate or a stream of lines takes at most.
pub(crate) const MOST_READS: u64 = 1_048_576;

/// Why a script was not read.
pub(crate) enum Unread {
    /// Memory did not suffice for it.
    Memory,
    /// A read failed, or the script has no end.
    Device,
}

/// A script that was read.
#[derive(Drop)]
pub(crate) enum ReadScript {
    /// Each line of it is driven.
    Plain(Vec<u8>),
    /// A script with comments, and what is passed on of it, which is driven.
    Commented { script: Vec<u8>, steps: Vec<u8> },
}

impl ReadScript {
    /// What is driven.
    pub(crate) fn steps(&self) -> &[u8]
        ensures { result.now ≡ steps_of self.now }
    {
        match self {
            ReadScript::Plain(script) => script.as_slice(),
            ReadScript::Commented { steps, .. } => steps.as_slice(),
        }
    }

    /// The number in the script of the line of this step.
    pub(crate) fn line_of(&self, step: u64) -> u64
        ensures { result ≡ line_in self.now step }
    {
        match self {
            ReadScript::Plain(_) => step,
            ReadScript::Commented { script, .. } => line_of(script, step),
        }
    }

    /// How the script ended, where what is driven of it ended so.
    fn end_of(&self, end: End) -> End
        ensures { result ≡ numbered_by (line_in self.now) end }
    {
        match end {
            End::Done => End::Done,
            End::Refused { step, cause } => End::Refused {
                step: self.line_of(step),
                cause,
            },
            End::Memory => End::Memory,
        }
    }
}

/// All that the link gives to read.
pub(crate) fn read_all<K: Link>(alloc: Global, link: &mut K) -> Result<Vec<u8>, Unread>
    ensures { MatchResult result (λ bytes. ReadsAll (K.told link.old) (K.told link.new) bytes.items) (λ why. ReadsSome (K.told link.old) (K.told link.new) why) }
{
    let mut bytes = Vec::new(alloc);
    let mut buf = [0u8; 8192];
    for _ in 0..MOST_READS {
        let Ok(n) = link.read(&mut buf) else {
            return Err(Unread::Device);
        };
        if n == 0 {
            return Ok(bytes);
        }
        let Ok(()) = bytes.extend_from_slice(&buf[..n]) else {
            return Err(Unread::Memory);
        };
    }
    Err(Unread::Device)
}

/// The script that the link gives to read, in this form.
pub(crate) fn read_script<K: Link>(
    alloc: Global,
    link: &mut K,
    form: ScriptForm,
) -> Result<ReadScript, Unread>
    ensures { MatchResult result (λ read. IsIn form read × ReadsAll (K.told link.old) (K.told link.new) (script_of read)) (λ why. ReadsSome (K.told link.old) (K.told link.new) why) }
{
    let script = match read_all(alloc, link) {
        Ok(script) => script,
        Err(why) => return Err(why),
    };
    match form {
        ScriptForm::Plain => Ok(ReadScript::Plain(script)),
        ScriptForm::Commented => match without_comments(alloc, &script) {
            Ok(steps) => Ok(ReadScript::Commented { script, steps }),
            Err(_) => Err(Unread::Memory),
        },
    }
}

/// Drives a world by a script that was read.
fn drive_script(alloc: Global, script: &ReadScript) -> (Vec<u8>, End)
    ensures { (form : ScriptForm) → IsIn form script.now → IsDrivenIn form (script_of script.now) result.0.items result.1 }
{
    let (text, end) = drive(alloc, script.steps());
    (text, script.end_of(end))
}

/// Reads a script in this form, drives a world by it, and writes what it prints.
fn drive_over<K: Link>(alloc: Global, client: &mut K, form: ScriptForm) -> Result<End, LinkFault>
    ensures { IsDrivenOver form (K.told client.old) (K.told client.new) result }
{
    let script = match read_script(alloc, client, form) {
        Ok(script) => script,
        Err(Unread::Memory) => return Ok(End::Memory),
        Err(Unread::Device) => return Err(LinkFault::Device),
    };
    let (text, end) = drive_script(alloc, &script);
    match write_all(client, &text) {
        Ok(()) => Ok(end),
        Err(fault) => Err(fault),
    }
}

/// Tells how the script ended, where not all of its steps were taken.
fn tell_end<F: Link>(faults: &mut F, end: End)
    ensures { Tells (F.told faults.old) (F.told faults.new) (script_fault (Ok end)) }
{
    match end {
        End::Done => tell(faults, b""),
        End::Refused { step, cause } => tell_refusal(faults, step, cause),
        End::Memory => tell(faults, b"recline: memory\n"),
    }
}

/// Tells what went wrong, if something did.
fn tell_fault<F: Link>(faults: &mut F, end: Result<End, LinkFault>)
    ensures { Tells (F.told faults.old) (F.told faults.new) (script_fault end) }
{
    match end {
        Ok(end) => tell_end(faults, end),
        Err(_) => tell(faults, b"recline: device\n"),
    }
}

/// The status of the process for a script that ended so.
fn status_for(end: Result<End, LinkFault>) -> u8
    ensures { result ≡ script_status end }
{
    match end {
        Ok(End::Done) => 0,
        Ok(End::Refused { .. }) => 2,
        Ok(End::Memory) => 3,
        Err(_) => 3,
    }
}

/// The command `drive`: drives a world by the script that the client gives in this form, writes the reports of its steps to the
/// client, tells why a step was refused, and answers the status of the process.
pub fn drive_on<K: Link, F: Link>(
    alloc: Global,
    client: &mut K,
    faults: &mut F,
    form: ScriptForm,
) -> u8
    ensures { Drives K.told F.told form client.old client.new faults.old faults.new result }
{
    let end = drive_over(alloc, client, form);
    tell_fault(faults, end);
    status_for(end)
}
