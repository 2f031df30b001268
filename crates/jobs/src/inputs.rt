//! Lines, records and certificates that are made of other ones.

use crate::random::Random;
use anyhow::Result;
use std::alloc::{AllocError, Global};
use std::num::NonZeroU32;

fn put_line(out: &mut Vec<u8>, line: &[u8]) -> Result<(), AllocError> {
    out.extend_from_slice(line)?;
    out.extend_from_slice(b"\n")
}

// All but the last byte.
fn shortened(line: &[u8]) -> &[u8] {
    match line {
        [rest @ .., _last] => rest,
        [] => line,
    }
}

// The first word of a line with the space behind it, and the rest.
fn cut_word(line: &[u8]) -> (&[u8], &[u8]) {
    match line.iter().position(|b| *b == b' ') {
        Some(place) => (&line[..place + 1], &line[place + 1..]),
        None => (line, &[]),
    }
}

// The line with the next number in place of its own: of a report, one whose stamp does not grow.
fn put_not_grown(alloc: Global, out: &mut Vec<u8>, line: &[u8]) -> Result<(), AllocError> {
    let (kind, behind) = cut_word(line);
    let (process, behind) = cut_word(behind);
    let (number, rest) = cut_number(behind);
    let next = number.wrapping_add(1);
    let text = format!(in alloc; "{next}")?;
    out.extend_from_slice(kind)?;
    out.extend_from_slice(process)?;
    out.extend_from_slice(text.as_bytes())?;
    put_line(out, rest)
}

// A late copy of a line, or a wrong one, or a report whose stamp does not grow, or nothing.
fn put_stranger(
    alloc: Global,
    out: &mut Vec<u8>,
    random: &mut Random,
    line: &[u8],
) -> Result<(), AllocError> {
    match random.up_to(4) {
        0 => put_line(out, line),
        1 => put_line(out, shortened(line)),
        2 => put_not_grown(alloc, out, line),
        3 => {
            out.extend_from_slice(line)?;
            put_line(out, line)
        }
        _ => Ok(()),
    }
}

/// These lines, with others among them that are not accepted.
pub fn among_strangers(
    alloc: Global,
    random: &mut Random,
    lines: &[u8],
) -> Result<Vec<u8>, AllocError> {
    let mut out = Vec::new(alloc);
    for line in lines.split(|b| *b == b'\n') {
        if !line.is_empty() {
            put_line(&mut out, line)?;
            put_stranger(alloc, &mut out, random, line)?;
        }
    }
    Ok(out)
}

/// The lines, and behind each so many of them a question for the line where one of so many processes failed.
pub fn with_questions(
    alloc: Global,
    random: &mut Random,
    lines: &[u8],
    every: NonZeroU32,
    processes: NonZeroU32,
) -> Result<Vec<u8>, AllocError> {
    let mut out = Vec::new(alloc);
    let mut count = 0u32;
    for line in lines.split(|b| *b == b'\n') {
        if !line.is_empty() {
            put_line(&mut out, line)?;
            count = count.wrapping_add(1);
            if count > processes.get() && count % every.get() == 0 {
                put_question(alloc, &mut out, random.below(processes))?;
            }
        }
    }
    Ok(out)
}

// Puts the question for the line where this process failed.
fn put_question(alloc: Global, out: &mut Vec<u8>, failed: u32) -> Result<(), AllocError> {
    let line = format!(in alloc; "LINE p{failed}\n")?;
    out.extend_from_slice(line.as_bytes())
}

/// Puts so many questions for the lines where one process failed each, another one each time, as far as there are so many.
pub fn put_questions(
    alloc: Global,
    out: &mut Vec<u8>,
    random: &mut Random,
    processes: NonZeroU32,
    times: NonZeroU32,
) -> Result<(), AllocError> {
    let first = random.below(processes);
    let apart = (processes.get() / times.get()).max(1);
    for number in 0..times.get() {
        let failed = first.wrapping_add(number.wrapping_mul(apart)) % processes.get();
        put_question(alloc, out, failed)?;
    }
    Ok(())
}

// The number that the bytes begin with, and what stands behind it.
fn cut_number(bytes: &[u8]) -> (u32, &[u8]) {
    let mut number = 0u32;
    let mut rest = bytes;
    while let [digit @ b'0'..=b'9', behind @ ..] = rest {
        number = number
            .wrapping_mul(10)
            .wrapping_add(u32::from(*digit - b'0'));
        rest = behind;
    }
    (number, rest)
}

// The events of a stamp, and what stands behind it, where everybody knows so many events more.
fn put_more(alloc: Global, out: &mut Vec<u8>, events: &[u8], more: u32) -> Result<(), AllocError> {
    let inside = match events {
        [b'(', inside @ ..] => {
            out.extend_from_slice(b"(")?;
            inside
        }
        _ => events,
    };
    let (number, rest) = cut_number(inside);
    let number = number.wrapping_add(more);
    let text = format!(in alloc; "{number}")?;
    out.extend_from_slice(text.as_bytes())?;
    put_line(out, rest)
}

fn put_later(alloc: Global, out: &mut Vec<u8>, line: &[u8], more: u32) -> Result<(), AllocError> {
    match line.iter().position(|b| *b == b';') {
        Some(place) => {
            out.extend_from_slice(&line[..place + 1])?;
            put_more(alloc, out, &line[place + 1..], more)
        }
        None => put_line(out, line),
    }
}

/// The report lines of the same computation, whose root worked so much longer at its beginning.
pub fn later(alloc: Global, lines: &[u8], more: u32) -> Result<Vec<u8>, AllocError> {
    let mut out = Vec::new(alloc);
    for line in lines.split(|b| *b == b'\n') {
        if !line.is_empty() {
            put_later(alloc, &mut out, line, more)?;
        }
    }
    Ok(out)
}

// A record behind an open gate.
fn put_record(out: &mut Vec<u8>, line: &[u8]) -> Result<()> {
    let length = u16::try_from(line.len())?;
    out.push(1)?;
    out.extend_from_slice(length.to_be_bytes().as_slice())?;
    Ok(out.extend_from_slice(line)?)
}

/// A record file of these lines, in its first version.
pub fn records_of(alloc: Global, lines: &[u8]) -> Result<Vec<u8>> {
    let mut out = Vec::from_slice(alloc, b"RECLINE1")?;
    for line in lines.split(|b| *b == b'\n') {
        if !line.is_empty() {
            put_record(&mut out, line)?;
        }
    }
    out.push(0)?;
    Ok(out)
}

/// The certificate that the last of these replies tells, if there is one.
pub fn certificate_in(replies: &[u8]) -> Option<&[u8]> {
    let mut found = None;
    for reply in replies.split(|b| *b == b'\n') {
        if let [b'L', b'I', b'N', b'E', b' ', text @ ..] = reply {
            found = Some(text);
        }
    }
    found
}

// Where the last digit above 1 stands, of a number or of a name.
fn last_digit(text: &[u8]) -> Option<usize> {
    let mut found = None;
    for (place, byte) in text.iter().enumerate() {
        if matches!(*byte, b'2'..=b'9') {
            found = Some(place);
        }
    }
    found
}

/// A copy of a certificate, with the last digit above 1 in it changed.
pub fn changed(alloc: Global, certificate: &[u8]) -> Result<Vec<u8>, AllocError> {
    let mut text = Vec::from_slice(alloc, certificate)?;
    if let Some(place) = last_digit(certificate) {
        if let Some(byte) = text.get_mut(place) {
            *byte = b'1';
        }
    }
    Ok(text)
}
