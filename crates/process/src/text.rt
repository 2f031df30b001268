//! The texts of processes and of what they hand to others.

ghost use Rattle.std.specs.Prelude.{◌≡◌, ◌++◌, ◌∷◌, OnOk, OnErr, take, length};
ghost use Rattle.std.specs.Fmt.{decimal};
ghost use Rattle.event_tree.specs.Spelling as event_texts;
ghost use Rattle.stamp.specs.Stamps.{stamp_text};
ghost use Rattle.report_line.specs.Reading.{Finds};
ghost use Rattle.process.specs.Texts.{IsProcess, IsMessage, IsStart, IsRetirement, process_text, message_text, start_text, retirement_text};

use crate::handed::{Message, Retirement, Start};
use crate::number::push_number;
use crate::process::Process;
use crate::reading::{read_message, read_process, read_retirement, read_start};
use event_tree::Events;
use report_line::{LineFault, Name, Words};
use stamp::Stamp;
use std::alloc::{AllocError, Global};

// ---- words, each with a space in front of it; where memory runs out, what was there stands in front of what came

fn push_name_word(out: &mut Vec<u8>, name: &Name) -> Result<(), AllocError>
    ensures ok { OnOk result (out.new.items ≡ out.old.items ++ 32 ∷ name.now) }
    ensures err { OnErr result (take (length out.old.items) out.new.items ≡ out.old.items) }
{
    out.push(b' ')?;
    out.extend_from_slice(name.as_bytes())
}

fn push_number_word(out: &mut Vec<u8>, n: u32) -> Result<(), AllocError>
    ensures ok { OnOk result (out.new.items ≡ out.old.items ++ 32 ∷ decimal n) }
    ensures err { OnErr result (take (length out.old.items) out.new.items ≡ out.old.items) }
{
    out.push(b' ')?;
    push_number(out, n)
}

fn push_stamp_word(out: &mut Vec<u8>, stamp: &Stamp) -> Result<(), AllocError>
    ensures ok { OnOk result (out.new.items ≡ out.old.items ++ 32 ∷ stamp_text stamp.now) }
    ensures err { OnErr result (take (length out.old.items) out.new.items ≡ out.old.items) }
{
    out.push(b' ')?;
    stamp.write_to(out)
}

fn push_events_word(out: &mut Vec<u8>, events: &Events) -> Result<(), AllocError>
    ensures ok { OnOk result (out.new.items ≡ out.old.items ++ 32 ∷ event_texts.spelling events.now) }
    ensures err { OnErr result (take (length out.old.items) out.new.items ≡ out.old.items) }
{
    out.push(b' ')?;
    events.write_to(out)
}

#[tactic(auto, using(crate::proofs::Pieces::begins_on, crate::proofs::Pieces::begins_here))]
fn push_counts(out: &mut Vec<u8>, epoch: u32, reports: u32) -> Result<(), AllocError>
    ensures ok { OnOk result (out.new.items ≡ out.old.items ++ 32 ∷ (decimal epoch ++ 32 ∷ decimal reports)) }
    ensures err { OnErr result (take (length out.old.items) out.new.items ≡ out.old.items) }
{
    push_number_word(out, epoch)?;
    push_number_word(out, reports)
}

// ---- whole texts, in the same way

#[tactic(auto, using(crate::proofs::Pieces::begins_on, crate::proofs::Pieces::begins_here))]
fn push_process(out: &mut Vec<u8>, process: &Process) -> Result<(), AllocError>
    ensures ok { OnOk result (out.new.items ≡ out.old.items ++ process_text process.now) }
    ensures err { OnErr result (take (length out.old.items) out.new.items ≡ out.old.items) }
{
    out.extend_from_slice(b"process")?;
    push_name_word(out, &process.name)?;
    push_counts(out, process.epoch, process.reports)?;
    push_stamp_word(out, &process.stamp)
}

#[tactic(auto, using(crate::proofs::Pieces::begins_on, crate::proofs::Pieces::begins_here))]
fn push_message(out: &mut Vec<u8>, message: &Message) -> Result<(), AllocError>
    ensures ok { OnOk result (out.new.items ≡ out.old.items ++ message_text message.now) }
    ensures err { OnErr result (take (length out.old.items) out.new.items ≡ out.old.items) }
{
    out.extend_from_slice(b"message")?;
    push_number_word(out, message.epoch)?;
    push_events_word(out, &message.events)
}

#[tactic(auto, using(crate::proofs::Pieces::begins_on, crate::proofs::Pieces::begins_here))]
fn push_start(out: &mut Vec<u8>, start: &Start) -> Result<(), AllocError>
    ensures ok { OnOk result (out.new.items ≡ out.old.items ++ start_text start.now) }
    ensures err { OnErr result (take (length out.old.items) out.new.items ≡ out.old.items) }
{
    out.extend_from_slice(b"start")?;
    push_name_word(out, &start.child)?;
    push_number_word(out, start.epoch)?;
    push_stamp_word(out, &start.stamp)
}

#[tactic(auto, using(crate::proofs::Pieces::begins_on, crate::proofs::Pieces::begins_here))]
fn push_retirement(out: &mut Vec<u8>, retirement: &Retirement) -> Result<(), AllocError>
    ensures ok { OnOk result (out.new.items ≡ out.old.items ++ retirement_text retirement.now) }
    ensures err { OnErr result (take (length out.old.items) out.new.items ≡ out.old.items) }
{
    out.extend_from_slice(b"retirement")?;
    push_name_word(out, &retirement.process)?;
    push_number_word(out, retirement.epoch)?;
    push_name_word(out, &retirement.target)?;
    push_stamp_word(out, &retirement.stamp)
}

// ---- what callers see

impl Process {
    /// Tells a proof what holds of each process.
    pub fn recall_facts(&self)
        ensures { IsProcess self.now }
    {
        let _name = self.name.as_bytes();
        let _epoch = self.epoch;
        let _reports = self.reports;
        self.stamp.recall_facts();
    }

    /// Appends the one text of the process, a line without its LF. On a refused growth `out` is as it was.
    pub fn write_to(&self, out: &mut Vec<u8>) -> Result<(), AllocError>
        ensures ok { OnOk result (out.new.items ≡ out.old.items ++ process_text self.now) }
        ensures err { OnErr result (out.new.items ≡ out.old.items) }
    {
        let before = out.len();
        let written = push_process(out, self);
        if written.is_err() {
            out.truncate(before);
        }
        written
    }

    /// The process of which the bytes are the text, all of the bytes. `Grammar` where they are the text of none.
    pub fn parse(alloc: Global, bytes: &[u8]) -> Result<Process, LineFault>
        ensures { Finds result (λ p. IsProcess p × (bytes.now ≡ process_text p)) }
    {
        let mut words = Words::of(bytes);
        read_process(alloc, &mut words)
    }
}

impl Message {
    /// Tells a proof what holds of each message.
    pub fn recall_facts(&self)
        ensures { IsMessage self.now }
    {
        let _epoch = self.epoch;
        self.events.recall_facts();
    }

    /// Appends the one text of the message, a line without its LF. On a refused growth `out` is as it was.
    pub fn write_to(&self, out: &mut Vec<u8>) -> Result<(), AllocError>
        ensures ok { OnOk result (out.new.items ≡ out.old.items ++ message_text self.now) }
        ensures err { OnErr result (out.new.items ≡ out.old.items) }
    {
        let before = out.len();
        let written = push_message(out, self);
        if written.is_err() {
            out.truncate(before);
        }
        written
    }

    /// The message of which the bytes are the text, all of the bytes. `Grammar` where they are the text of none.
    pub fn parse(alloc: Global, bytes: &[u8]) -> Result<Message, LineFault>
        ensures { Finds result (λ m. IsMessage m × (bytes.now ≡ message_text m)) }
    {
        let mut words = Words::of(bytes);
        read_message(alloc, &mut words)
    }
}

impl Start {
    /// Tells a proof what holds of each start.
    pub fn recall_facts(&self)
        ensures { IsStart self.now }
    {
        let _child = self.child.as_bytes();
        let _epoch = self.epoch;
        self.stamp.recall_facts();
    }

    /// Appends the one text of the start, a line without its LF. On a refused growth `out` is as it was.
    pub fn write_to(&self, out: &mut Vec<u8>) -> Result<(), AllocError>
        ensures ok { OnOk result (out.new.items ≡ out.old.items ++ start_text self.now) }
        ensures err { OnErr result (out.new.items ≡ out.old.items) }
    {
        let before = out.len();
        let written = push_start(out, self);
        if written.is_err() {
            out.truncate(before);
        }
        written
    }

    /// The start of which the bytes are the text, all of the bytes. `Grammar` where they are the text of none.
    pub fn parse(alloc: Global, bytes: &[u8]) -> Result<Start, LineFault>
        ensures { Finds result (λ s. IsStart s × (bytes.now ≡ start_text s)) }
    {
        let mut words = Words::of(bytes);
        read_start(alloc, &mut words)
    }
}

impl Retirement {
    /// Tells a proof what holds of each retirement.
    pub fn recall_facts(&self)
        ensures { IsRetirement self.now }
    {
        let _process = self.process.as_bytes();
        let _epoch = self.epoch;
        let _target = self.target.as_bytes();
        self.stamp.recall_facts();
    }

    /// Appends the one text of the retirement, a line without its LF. On a refused growth `out` is as it was.
    pub fn write_to(&self, out: &mut Vec<u8>) -> Result<(), AllocError>
        ensures ok { OnOk result (out.new.items ≡ out.old.items ++ retirement_text self.now) }
        ensures err { OnErr result (out.new.items ≡ out.old.items) }
    {
        let before = out.len();
        let written = push_retirement(out, self);
        if written.is_err() {
            out.truncate(before);
        }
        written
    }

    /// The retirement of which the bytes are the text, all of the bytes. `Grammar` where they are the text of none.
    pub fn parse(alloc: Global, bytes: &[u8]) -> Result<Retirement, LineFault>
        ensures { Finds result (λ r. IsRetirement r × (bytes.now ≡ retirement_text r)) }
    {
        let mut words = Words::of(bytes);
        read_retirement(alloc, &mut words)
    }
}
