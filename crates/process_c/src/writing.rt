//! Texts in the order in which they are given, each ended by LF.

ghost use Rattle.std.specs.Prelude.{◌≡◌, [], ◌∷◌, ◌++◌, OnOk, IfOk};
ghost use Rattle.process.specs.Texts.{process_text, message_text, start_text, retirement_text};
ghost use Rattle.process_c.specs.Answers.{lines_of};
ghost use Rattle.process_c.specs.Given.{state_and};

use process::{Message, Process, Retirement, Start};
use std::alloc::{AllocError, Global};

/// Room for the texts of small stamps.
const SMALL: usize = 256;

fn push_line(out: &mut Vec<u8>, text: &[u8]) -> Result<(), AllocError>
    ensures { OnOk result (out.new.items ≡ out.old.items ++ (text.now ++ 10 ∷ [])) }
{
    out.extend_from_slice(text)?;
    out.push(b'\n')?;
    Ok(())
}

fn push_state(out: &mut Vec<u8>, process: &Process) -> Result<(), AllocError>
    ensures { OnOk result (out.new.items ≡ out.old.items ++ (process_text process.now ++ 10 ∷ [])) }
{
    process.write_to(out)?;
    out.push(b'\n')?;
    Ok(())
}

fn push_message(out: &mut Vec<u8>, message: &Message) -> Result<(), AllocError>
    ensures { OnOk result (out.new.items ≡ out.old.items ++ (message_text message.now ++ 10 ∷ [])) }
{
    message.write_to(out)?;
    out.push(b'\n')?;
    Ok(())
}

fn push_start(out: &mut Vec<u8>, start: &Start) -> Result<(), AllocError>
    ensures { OnOk result (out.new.items ≡ out.old.items ++ (start_text start.now ++ 10 ∷ [])) }
{
    start.write_to(out)?;
    out.push(b'\n')?;
    Ok(())
}

fn push_retirement(out: &mut Vec<u8>, retirement: &Retirement) -> Result<(), AllocError>
    ensures { OnOk result (out.new.items ≡ out.old.items ++ (retirement_text retirement.now ++ 10 ∷ [])) }
{
    retirement.write_to(out)?;
    out.push(b'\n')?;
    Ok(())
}

/// The state alone.
pub fn state(alloc: Global, process: &Process) -> Result<Vec<u8>, AllocError>
    ensures { IfOk result (λ v. v.items ≡ state_and process.now []) }
{
    let mut out = Vec::with_capacity(alloc, SMALL)?;
    push_state(&mut out, process)?;
    Ok(out)
}

/// The state and the line of a report.
pub fn state_and_line(alloc: Global, process: &Process, line: &[u8]) -> Result<Vec<u8>, AllocError>
    ensures { IfOk result (λ v. v.items ≡ state_and process.now (line.now ∷ [])) }
{
    let mut out = Vec::with_capacity(alloc, SMALL)?;
    push_state(&mut out, process)?;
    push_line(&mut out, line)?;
    Ok(out)
}

/// The state and a message.
pub fn state_and_message(
    alloc: Global,
    process: &Process,
    message: &Message,
) -> Result<Vec<u8>, AllocError>
    ensures { IfOk result (λ v. v.items ≡ state_and process.now (message_text message.now ∷ [])) }
{
    let mut out = Vec::with_capacity(alloc, SMALL)?;
    push_state(&mut out, process)?;
    push_message(&mut out, message)?;
    Ok(out)
}

/// The state, the line of a report, and what a child starts from.
pub fn state_line_and_start(
    alloc: Global,
    process: &Process,
    line: &[u8],
    start: &Start,
) -> Result<Vec<u8>, AllocError>
    ensures { IfOk result (λ v. v.items ≡ state_and process.now (line.now ∷ (start_text start.now ∷ []))) }
{
    let mut out = Vec::with_capacity(alloc, SMALL)?;
    push_state(&mut out, process)?;
    push_line(&mut out, line)?;
    push_start(&mut out, start)?;
    Ok(out)
}

/// The line of a report, and the retirement that it tells.
pub fn line_and_retirement(
    alloc: Global,
    line: &[u8],
    retirement: &Retirement,
) -> Result<Vec<u8>, AllocError>
    ensures { IfOk result (λ v. v.items ≡ lines_of (line.now ∷ (retirement_text retirement.now ∷ []))) }
{
    let mut out = Vec::with_capacity(alloc, SMALL)?;
    push_line(&mut out, line)?;
    push_retirement(&mut out, retirement)?;
    Ok(out)
}
