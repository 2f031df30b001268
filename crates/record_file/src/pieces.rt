//! Reading a record file on a disk, piece by piece, and nothing behind its closed gate but the rest of a piece.

ghost use Rattle.std.specs.Prelude.{◌≡◌, ◌≢◌, ◌↔◌, ◌<◌, ◌≤◌, [], IfOk, IfErr, MatchResult, length, get_or, take, true, false};
ghost use Rattle.line_disk.specs.Disk.{Rests};
ghost use Rattle.record_file.specs.File.{header};
ghost use Rattle.record_file.specs.Kept.{said_in};
ghost use Rattle.record_file.specs.Opening.{IsRefused, CountsFault};
ghost use Rattle.record_file.specs.Reading.{IsReadTo, IsReading};

use crate::fault::OpenFault;
use crate::reading::{OPEN, begins_with_magic, walk};
use line_disk::Disk;
use std::alloc::Global;

/// By how many bytes the file is read on. A piece begins at the last gate before, so it is longer by less than a record.
const STEP: usize = 32768;

/// The records of a file of which a part was read.
#[derive(Drop)]
struct Reading {
    version: u8,
    /// How many bytes the file has.
    len: usize,
    /// Up to where it is read.
    end: usize,
    /// Where the gate stands behind the records.
    at: usize,
    records: Vec<(u32, Vec<u8>)>,
    ghost long_enough: { 10 ≤ len },
    ghost behind_header: { 8 ≤ at },
    ghost before_end: { at < end },
    ghost in_file: { end ≤ len },
}

/// The version of a file, by its first eight bytes.
fn read_version<D: Disk>(alloc: Global, disk: &mut D) -> Result<u8, OpenFault>
    requires { D.keeps disk.old → 10 ≤ length (D.view disk.old).seen }
    ensures ok { D.keeps disk.old → IfOk result (λ version. take 8 (D.view disk.old).seen ≡ header version) }
    ensures refused { D.keeps disk.old → IfErr result (IsRefused (D.view disk.old).seen) }
    ensures rests { D.keeps disk.old → Rests (D.view disk.old) (D.view disk.new) }
    ensures cause { MatchResult result (λ _. D.failed disk.new ≡ D.failed disk.old) (λ e. CountsFault e (D.failed disk.old) (D.failed disk.new)) }
    ensures premise { D.keeps disk.new ↔ D.keeps disk.old }
{
    let bytes = disk.read_at(alloc, 0, 8)?;
    if !begins_with_magic(&bytes) {
        return Err(OpenFault::Foreign);
    }
    Ok(bytes[7])
}

/// Takes the records up to where the file is to be read, and says whether a closed gate stands behind them.
fn take_piece<D: Disk>(
    alloc: Global,
    disk: &mut D,
    reading: &mut Reading,
) -> Result<bool, OpenFault>
    requires { D.keeps disk.old → reading.old.len ≡ length (D.view disk.old).seen }
    ensures read { D.keeps disk.old → IsReadTo (D.view disk.old).seen reading.old.version (said_in reading.old.records.items) reading.old.at
        → IfOk result (λ _. IsReadTo (D.view disk.old).seen reading.old.version (said_in reading.new.records.items) reading.new.at) }
    ensures closed { D.keeps disk.old → IfOk result (λ shut. shut ≡ true → get_or (D.view disk.old).seen reading.new.at 0 ≢ 1) }
    ensures goes_on { IfOk result (λ shut. shut ≡ false → reading.new.end < reading.new.len) }
    ensures refused { D.keeps disk.old → IsReadTo (D.view disk.old).seen reading.old.version (said_in reading.old.records.items) reading.old.at
        → take 8 (D.view disk.old).seen ≡ header reading.old.version → IfErr result (IsRefused (D.view disk.old).seen) }
    ensures version { reading.new.version ≡ reading.old.version }
    ensures len { reading.new.len ≡ reading.old.len }
    ensures end { reading.new.end ≡ reading.old.end }
    ensures rests { D.keeps disk.old → Rests (D.view disk.old) (D.view disk.new) }
    ensures cause { MatchResult result (λ _. D.failed disk.new ≡ D.failed disk.old) (λ e. CountsFault e (D.failed disk.old) (D.failed disk.new)) }
    ensures premise { D.keeps disk.new ↔ D.keeps disk.old }
{
    let piece = disk.read_at(alloc, reading.at, reading.end - reading.at)?;
    let last = reading.end == reading.len;
    let n = walk(alloc, reading.version, &piece, last, &mut reading.records)?;
    reading.at += n;
    Ok(piece[n] != OPEN)
}

/// The file is to be read on by a step, or to its end.
fn read_on(reading: &mut Reading)
    requires { reading.old.end < reading.old.len }
    ensures end { reading.old.end < reading.new.end }
    ensures version { reading.new.version ≡ reading.old.version }
    ensures len { reading.new.len ≡ reading.old.len }
    ensures at { reading.new.at ≡ reading.old.at }
    ensures records { reading.new.records ≡ reading.old.records }
{
    reading.end += STEP.min(reading.len - reading.end);
}

/// The version of the file of so many bytes on a disk, what its records say, and where the bytes behind its closed gate begin.
pub(crate) fn read_file<D: Disk>(
    alloc: Global,
    disk: &mut D,
    len: usize,
) -> Result<(u8, Vec<(u32, Vec<u8>)>, usize), OpenFault>
    requires long_enough { 10 ≤ len }
    requires whole { D.keeps disk.old → len ≡ length (D.view disk.old).seen }
    ensures ok { D.keeps disk.old → IfOk result (λ r. IsReading (D.view disk.old).seen r.0 (said_in r.1.items) r.2) }
    ensures end { IfOk result (λ r. 9 ≤ r.2) }
    ensures refused { D.keeps disk.old → IfErr result (IsRefused (D.view disk.old).seen) }
    ensures rests { D.keeps disk.old → Rests (D.view disk.old) (D.view disk.new) }
    ensures cause { MatchResult result (λ _. D.failed disk.new ≡ D.failed disk.old) (λ e. CountsFault e (D.failed disk.old) (D.failed disk.new)) }
    ensures premise { D.keeps disk.new ↔ D.keeps disk.old }
{
    let version = read_version(alloc, disk)?;
    let mut reading = Reading {
        version,
        len,
        end: len.min(STEP),
        at: 8,
        records: Vec::new(alloc),
    };
    while !take_piece(alloc, disk, &mut reading)? {
        read_on(&mut reading);
    }
    let Reading {
        version,
        len: _,
        end: _,
        at,
        records,
    } = reading;
    Ok((version, records, at + 1))
}
