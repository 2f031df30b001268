//! The commands of `recline`, over bytes in memory.

use crate::digest::Digest;
use anyhow::{Result, ensure};
use client_link::Streams;
use line_disk::{MemoryDisk, NullDisk};
use recline::{ScriptForm, check_on, draw_on, drive_on, run_on};
use std::alloc::{AllocError, Global};
use std::io::{self, BufWriter, Empty, Sink};

/// A client that gives bytes, and keeps what is written.
type Client<'a> = Streams<&'a [u8], Vec<u8>>;

fn client_of(alloc: Global, input: &[u8]) -> Result<Client<'_>, AllocError> {
    let output = BufWriter::new(alloc, Vec::new(alloc)).map_err(|_| AllocError)?;
    Ok(Streams::new(input, output))
}

// Where fault lines go.
fn no_faults(alloc: Global) -> Result<Streams<Empty, Sink>, AllocError> {
    let errors = BufWriter::with_capacity(alloc, 0, io::sink()).map_err(|_| AllocError)?;
    Ok(Streams::new(io::empty(), errors))
}

// A client that gives this, and where fault lines go.
fn streams_of(
    alloc: Global,
    input: &[u8],
) -> Result<(Client<'_>, Streams<Empty, Sink>), AllocError> {
    let client = client_of(alloc, input)?;
    Ok((client, no_faults(alloc)?))
}

// Fails where a command did.
fn succeeded(command: &str, status: u8) -> Result<()> {
    ensure!(status == 0, "{command} ended with {status}");
    Ok(())
}

// What was written.
fn written_by(client: Client<'_>) -> Vec<u8> {
    let (_rest, output) = client.into_inner();
    let (written, _waiting) = output.into_parts();
    written
}

// What the client of a command that ended so got, which counts.
fn counted(digest: &mut Digest, status: u8, client: Client<'_>) -> Vec<u8> {
    let text = written_by(client);
    digest.take_status(status);
    digest.take(&text);
    text
}

/// The report lines of a script.
pub fn drive(alloc: Global, digest: &mut Digest, script: &[u8]) -> Result<Vec<u8>> {
    let (mut client, mut faults) = streams_of(alloc, script)?;
    let status = drive_on(alloc, &mut client, &mut faults, ScriptForm::Plain);
    succeeded("drive", status)?;
    Ok(counted(digest, status, client))
}

// The picture of a script, where the first process failed.
fn picture_of(alloc: Global, digest: &mut Digest, script: &[u8]) -> Result<Vec<u8>> {
    let (mut client, mut faults) = streams_of(alloc, script)?;
    let status = draw_on(
        alloc,
        &mut client,
        &mut faults,
        ScriptForm::Plain,
        Some("p0"),
    );
    digest.take_status(status);
    succeeded("draw", status)?;
    Ok(written_by(client))
}

/// Draws a script, where the first process failed. The bytes of the picture do not count, since how it looks may change.
pub fn draw(alloc: Global, digest: &mut Digest, script: &[u8]) -> Result<()> {
    let picture = picture_of(alloc, digest, script)?;
    ensure!(picture.ends_with(b"</svg>\n"), "the picture is not whole");
    Ok(())
}

/// The replies to a stream of lines.
pub fn run(alloc: Global, digest: &mut Digest, lines: &[u8]) -> Result<Vec<u8>> {
    let (mut client, mut faults) = streams_of(alloc, lines)?;
    let (status, _disk) = run_on(alloc, NullDisk::new(), &mut client, &mut faults);
    succeeded("run", status)?;
    Ok(counted(digest, status, client))
}

// Checks a certificate over a file of these records. Status and verdict count; answers the status.
fn check_over(
    alloc: Global,
    digest: &mut Digest,
    records: &[u8],
    certificate: &[u8],
) -> Result<u8> {
    let (mut client, mut faults) = streams_of(alloc, certificate)?;
    let disk = MemoryDisk::new(alloc, records)?;
    let (status, _disk) = check_on(alloc, disk, &mut client, &mut faults);
    let _verdict = counted(digest, status, client);
    Ok(status)
}

/// Checks a certificate over a file of these records.
pub fn check(alloc: Global, digest: &mut Digest, records: &[u8], certificate: &[u8]) -> Result<()> {
    let status = check_over(alloc, digest, records, certificate)?;
    ensure!(status == 0 || status == 4, "check ended with {status}");
    Ok(())
}

/// Reads a certificate that is refused, over a file of these records.
pub fn refuse(
    alloc: Global,
    digest: &mut Digest,
    records: &[u8],
    certificate: &[u8],
) -> Result<()> {
    let status = check_over(alloc, digest, records, certificate)?;
    ensure!(status == 2, "a certificate was taken, with {status}");
    Ok(())
}
