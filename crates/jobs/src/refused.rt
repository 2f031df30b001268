//! Lines and certificates that are refused.

use std::alloc::{AllocError, Global};

// A line up to its events, then this text, its events, and that text.
fn put_around(
    out: &mut Vec<u8>,
    line: &[u8],
    before: &[u8],
    behind: &[u8],
) -> Result<(), AllocError> {
    let place = match line.iter().position(|b| *b == b';') {
        Some(place) => place + 1,
        None => line.len(),
    };
    out.extend_from_slice(&line[..place])?;
    out.extend_from_slice(before)?;
    out.extend_from_slice(&line[place..])?;
    out.extend_from_slice(behind)?;
    out.extend_from_slice(b"\n")
}

// A line whose events are below so many nodes more.
fn put_deep(alloc: Global, out: &mut Vec<u8>, line: &[u8], levels: u32) -> Result<(), AllocError> {
    let mut before = Vec::new(alloc);
    let mut behind = Vec::new(alloc);
    for _ in 0..levels {
        before.extend_from_slice(b"(0,0,")?;
        behind.extend_from_slice(b")")?;
    }
    put_around(out, line, &before, &behind)
}

// A line with another byte at this place.
fn put_garbled(out: &mut Vec<u8>, line: &[u8], place: usize) -> Result<(), AllocError> {
    if place < line.len() {
        out.extend_from_slice(&line[..place])?;
        out.extend_from_slice(b"x")?;
        out.extend_from_slice(&line[place + 1..])?;
    }
    out.extend_from_slice(b"\n")
}

/// Puts a line with a fault of one of seven kinds: events whose second byte is none of a tree, that are not in normal form, too deep,
/// too large, or run on; or a byte in the middle or at the end that is none of a tree.
pub fn put_refused(
    alloc: Global,
    out: &mut Vec<u8>,
    line: &[u8],
    kind: u32,
) -> Result<(), AllocError> {
    match kind % 7 {
        0 => put_around(out, line, b"(x", b""),
        1 => put_around(out, line, b"(0,", b",(0,0,0))"),
        2 => put_deep(alloc, out, line, 41),
        3 => put_around(out, line, b"(4294967295,0,", b")"),
        4 => put_around(out, line, b"", b"(0,0,1)"),
        5 => put_garbled(out, line, line.len() / 2),
        _ => put_garbled(out, line, line.len().saturating_sub(1)),
    }
}

/// The lines, and one that is refused behind each.
pub fn with_refused(alloc: Global, lines: &[u8]) -> Result<Vec<u8>, AllocError> {
    let mut out = Vec::new(alloc);
    let mut kind = 0u32;
    for line in lines.split(|b| *b == b'\n') {
        if !line.is_empty() {
            out.extend_from_slice(line)?;
            out.extend_from_slice(b"\n")?;
            put_refused(alloc, &mut out, line, kind)?;
            kind = kind.wrapping_add(1);
        }
    }
    Ok(out)
}

// Where this byte stands last.
fn last_place(text: &[u8], wanted: u8) -> Option<usize> {
    let mut found = None;
    for (place, byte) in text.iter().enumerate() {
        if *byte == wanted {
            found = Some(place);
        }
    }
    found
}

/// A copy of a certificate with another byte in place of the last of these, if there is one.
pub fn with_last(
    alloc: Global,
    certificate: &[u8],
    last: u8,
    other: u8,
) -> Result<Vec<u8>, AllocError> {
    let mut text = Vec::from_slice(alloc, certificate)?;
    if let Some(place) = last_place(certificate, last) {
        if let Some(byte) = text.get_mut(place) {
            *byte = other;
        }
    }
    Ok(text)
}
