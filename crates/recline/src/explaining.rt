//! The command `explain`.

ghost use Rattle.std.specs.Prelude.{◌≡◌, []};
ghost use Rattle.line_explain.specs.Streams.{IsAfter};
ghost use Rattle.recline.specs.Outcome.{Tells};
ghost use Rattle.recline.specs.Driving.{HasFewReads};
ghost use Rattle.recline.specs.Explaining.{ExplainsOn, IsExplainedOver, lines_fault, lines_status};

use crate::driving::MOST_READS;
use crate::telling::{tell, write_all};
use client_link::Link;
use line_explain::Explanations;
use std::alloc::Global;

/// How explaining a stream of lines ended.
#[derive(Clone, Copy)]
pub(crate) enum LinesEnd {
    /// All of its lines were explained; whether each is a call.
    Told(bool),
    /// Memory did not suffice.
    Memory,
    /// A read or a write failed, or the stream has no end.
    Device,
}

/// Explains the lines that the link gives, those of each piece at once.
fn explain_lines<K: Link>(alloc: Global, client: &mut K, told: &mut Explanations) -> LinesEnd
    requires { IsAfter [] [] told.old }
    ensures over { IsExplainedOver (K.told client.old) (K.told client.new) result }
    ensures at_most { HasFewReads (K.told client.old) (K.told client.new) }
{
    let mut buf = [0u8; 8192];
    for _ in 0..MOST_READS {
        let Ok(n) = client.read(&mut buf) else {
            return LinesEnd::Device;
        };
        if n == 0 {
            return LinesEnd::Told(told.calls);
        }
        let Ok(text) = told.push(alloc, &buf[..n]) else {
            return LinesEnd::Memory;
        };
        let Ok(()) = write_all(client, &text) else {
            return LinesEnd::Device;
        };
        if told.too_long() {
            return LinesEnd::Told(told.calls);
        }
    }
    LinesEnd::Device
}

/// Explains the lines that the link gives.
fn explain_over<K: Link>(alloc: Global, client: &mut K) -> LinesEnd
    ensures over { IsExplainedOver (K.told client.old) (K.told client.new) result }
    ensures at_most { HasFewReads (K.told client.old) (K.told client.new) }
{
    let mut told = Explanations::new(alloc);
    explain_lines(alloc, client, &mut told)
}

/// Tells what went wrong, if something did.
fn tell_end<F: Link>(faults: &mut F, end: LinesEnd)
    ensures { Tells (F.told faults.old) (F.told faults.new) (lines_fault end) }
{
    match end {
        LinesEnd::Told(_) => tell(faults, b""),
        LinesEnd::Memory => tell(faults, b"recline: memory\n"),
        LinesEnd::Device => tell(faults, b"recline: device\n"),
    }
}

/// The status of the process for an end of this kind.
fn status_for(end: LinesEnd) -> u8
    ensures { result ≡ lines_status end }
{
    match end {
        LinesEnd::Told(true) => 0,
        LinesEnd::Told(false) => 4,
        LinesEnd::Memory | LinesEnd::Device => 3,
    }
}

/// The command `explain`: reads lines from the client, writes for each its number and what it is, a call or the first word that no call
/// has there, at once after each read, tells what went wrong, and answers the status of the process. A line that is too long is the last
/// one; a rest without LF at the end is none.
pub fn explain_on<K: Link, F: Link>(alloc: Global, client: &mut K, faults: &mut F) -> u8
    ensures { ExplainsOn K.told F.told client.old client.new faults.old faults.new result }
{
    let end = explain_over(alloc, client);
    tell_end(faults, end);
    status_for(end)
}
