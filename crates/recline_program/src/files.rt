//! Record files by their paths.

use crate::telling::{Reason, Teller};
use client_link::Link;
use earlier_file::{FileFault, facts, first_records};
use line_disk::{Device, FileDisk, Modelled, Reach, Unopened};
use recline::at_front;
use record_file::RecordReach;
use std::alloc::Global;
use std::fs::{self, File};
use std::io::{self, Read};
use std::os::unix::fs::FileExt;

/// So many records of a file are looked at: the last one is refused, if no earlier one is.
const MOST_RECORDS: u32 = 16_385;

/// So many bytes of a file are read at most: a header, and so many records of the longest lines.
const MOST_BYTES: usize = 9 + 16_385 * 8_199;

/// The bytes of the header of a record file: what it is, and its version.
const HEADER: usize = 8;

/// The disk over the record file of this path, which is made if it is missing; or the status, where the cause is told.
pub(crate) fn open_file(teller: Teller<'_>, path: &str) -> Result<FileDisk<Modelled>, u8> {
    let rt = teller.rt;
    match FileDisk::open(rt, rt.alloc(), path, &mut RecordReach::new()) {
        Ok(disk) => Ok(disk),
        Err(Unopened::Memory) => Err(teller.fault("memory")),
        Err(Unopened::Device(trouble)) => {
            let status = teller.fault("device");
            teller.explain(Reason::of_file(path, trouble));
            Err(status)
        }
    }
}

/// Says why a call of the disk over the file of this path failed, if one did, where that is asked for.
pub(crate) fn explain_disk<P: Device>(teller: Teller<'_>, path: &str, disk: &FileDisk<P>) {
    if let Some(trouble) = disk.trouble() {
        teller.explain(Reason::of_file(path, trouble));
    }
}

/// Why a file was not read.
#[derive(Clone, Copy)]
enum Unread {
    Memory,
    Device(io::Error),
}

/// Adds all bytes of a file, as far as records can reach.
fn read_reach(file: &mut File, bytes: &mut Vec<u8>) -> Result<(), Unread> {
    let mut buf = [0u8; 65_536];
    for _ in 0..u64::MAX {
        let n = match file.read(&mut buf) {
            Ok(n) => n,
            Err(error) => return Err(Unread::Device(error)),
        };
        if bytes.extend_from_slice(&buf[..n]).is_err() {
            return Err(Unread::Memory);
        }
        if n == 0 || bytes.len() >= MOST_BYTES {
            break;
        }
    }
    Ok(())
}

/// The same; or the status, where the cause is told.
fn read_or_tell(
    teller: Teller<'_>,
    path: &str,
    file: &mut File,
    bytes: &mut Vec<u8>,
) -> Result<(), u8> {
    match read_reach(file, bytes) {
        Ok(()) => Ok(()),
        Err(Unread::Memory) => Err(teller.fault("memory")),
        Err(Unread::Device(error)) => Err(teller.failed("read", path, &error)),
    }
}

/// All bytes of a file, as far as records can reach; or the status, where the cause is told.
fn read_through(teller: Teller<'_>, path: &str, file: &mut File) -> Result<Vec<u8>, u8> {
    let mut bytes = Vec::new(teller.rt.alloc());
    read_or_tell(teller, path, file, &mut bytes)?;
    Ok(bytes)
}

/// Whether a file begins with the header of these bytes by now, too. A run may write the version over, and what stands behind it is then
/// read otherwise. What has no places, as a pipe, is as it was read.
fn still_begins_so(file: &File, bytes: &[u8]) -> bool {
    let mut header = [0u8; HEADER];
    bytes.len() < HEADER
        || file.read_exact_at(&mut header, 0).is_err()
        || bytes.starts_with(&header)
}

/// The file of this path to be read; or the status, where the cause is told.
fn open_to_read(teller: Teller<'_>, path: &str) -> Result<File, u8> {
    match File::open(teller.rt, path) {
        Ok(file) => Ok(file),
        Err(error) => Err(teller.failed("open", path, &error)),
    }
}

/// The number of the first record of these bytes that is damaged, and where it begins, if one is.
fn damage_in(alloc: Global, bytes: &[u8]) -> Option<(usize, usize)> {
    let Err(FileFault::Damaged(number)) = facts(bytes) else {
        return None;
    };
    match first_records(alloc, bytes, number.saturating_sub(1)) {
        Ok(earlier) => Some((number, earlier.len())),
        Err(_) => None,
    }
}

/// The bytes of the file of this path, as far as records can reach, if it can be read. Nothing is told.
fn bytes_in_silence(rt: &HostRuntime, path: &str) -> Option<Vec<u8>> {
    let mut file = File::open(rt, path).ok()?;
    let mut bytes = Vec::new(rt.alloc());
    match read_reach(&mut file, &mut bytes) {
        Ok(()) => Some(bytes),
        Err(_) => None,
    }
}

/// Whether this path names a regular file. To open another thing may wait, and to read it may take what others are to read.
fn is_regular(rt: &HostRuntime, path: &str) -> bool {
    match fs::metadata(rt, path) {
        Ok(metadata) => metadata.is_file(),
        Err(_) => false,
    }
}

/// Says at which byte of the file of this path the record begins that is damaged, if one is among those that count.
pub(crate) fn explain_damage(teller: Teller<'_>, path: &str, at: Option<u32>) {
    if !is_regular(teller.rt, path) {
        return;
    }
    let Some(bytes) = bytes_in_silence(teller.rt, path) else {
        return;
    };
    let Some((number, offset)) = damage_in(teller.rt.alloc(), &bytes) else {
        return;
    };
    if number <= at.unwrap_or(u32::MAX) as usize {
        teller.explain_record(path, number, offset);
    }
}

/// All bytes of the file of this path, as far as records can reach, and whether it begins with them by now, too; or the status, where the cause
/// is told.
fn read_once(teller: Teller<'_>, path: &str) -> Result<(Vec<u8>, bool), u8> {
    let mut file = open_to_read(teller, path)?;
    let bytes = read_through(teller, path, &mut file)?;
    let begins_so = still_begins_so(&file, &bytes);
    Ok((bytes, begins_so))
}

/// All bytes of the file of this path, as far as records can reach; or the status, where the cause is told. The file is only read, and once
/// more where its header was written over meanwhile, which happens once to a record file.
fn read_file(teller: Teller<'_>, path: &str) -> Result<Vec<u8>, u8> {
    let (bytes, begins_so) = read_once(teller, path)?;
    if begins_so {
        return Ok(bytes);
    }
    drop(bytes);
    let mut file = open_to_read(teller, path)?;
    read_through(teller, path, &mut file)
}

/// The same, where more records than count are behind those that count: of these alone, as if they were all.
pub(crate) fn bytes_of<F: Link>(
    teller: Teller<'_>,
    path: &str,
    faults: &mut F,
) -> Result<Vec<u8>, u8> {
    let bytes = read_file(teller, path)?;
    if bytes.len() >= MOST_BYTES && RecordReach::new().wants_more(&bytes) {
        return at_front(teller.rt.alloc(), &bytes, MOST_RECORDS, faults);
    }
    Ok(bytes)
}

/// The same of its first records alone, if a front is given; or the status, where the cause is told.
pub(crate) fn records_of<F: Link>(
    teller: Teller<'_>,
    path: &str,
    at: Option<u32>,
    faults: &mut F,
) -> Result<Vec<u8>, u8> {
    let bytes = bytes_of(teller, path, faults)?;
    match at {
        Some(front) => at_front(teller.rt.alloc(), &bytes, front, faults),
        None => Ok(bytes),
    }
}
