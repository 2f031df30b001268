//! From gate to gate, over the records that bytes begin with.

ghost use Rattle.std.specs.Prelude.{◌≡◌, ◌≢◌, ◌↔◌, ◌<◌, ◌≤◌, IsTrue, IfOk, IfErr, length, get_or, take};
ghost use Rattle.record_file.specs.File.{header, IsForeign};
ghost use Rattle.earlier_file.specs.working.Walks.{IsWalked, IsDamagedWithin, IsUnheaded, IsPlaced, IsUnplaced};

use crate::fault::FileFault;
use record_file::split_record;

const MAGIC: [u8; 7] = *b"RECLINE";

/// An open gate.
const OPEN: u8 = 1;

/// How many bytes stand in front of the first gate.
pub(crate) const HEADER: usize = 8;

/// Passes over at most so many records, each behind an open gate, and says how many those are and where the gate behind them stands.
fn walk(version: u8, bytes: &[u8], most: usize) -> Result<(usize, usize), FileFault>
    requires { 0 < length bytes.now }
    ensures walked { IfOk result (λ r. IsWalked version r.0 r.1 bytes.now) }
    ensures most { IfOk result (λ r. r.0 ≤ most) }
    ensures stops { IfOk result (λ r. r.0 < most → get_or bytes.now r.1 0 ≢ 1) }
    ensures damaged { IfErr result (IsDamagedWithin version most bytes.now) }
{
    let mut count = 0;
    let mut at = 0;
    while count < most && bytes[at] == OPEN {
        let (_, after) = bytes.split_at(at + 1);
        let Some((_, _, behind)) = split_record(version, after) else {
            return Err(FileFault::Damaged(count + 1));
        };
        at = bytes.len() - behind.len();
        count += 1;
    }
    Ok((count, at))
}

/// The version of a file, by its header.
fn version_of(file: &[u8]) -> Result<u8, FileFault>
    requires { 10 ≤ length file.now }
    ensures ok { IfOk result (λ version. take 8 file.now ≡ header version) }
    ensures err { IfErr result (IsUnheaded file.now) }
{
    if !file.starts_with(&MAGIC) {
        return Err(FileFault::Foreign);
    }
    Ok(file[7])
}

/// A gate of a file.
#[derive(Clone, Copy)]
pub(crate) struct Gate {
    pub(crate) version: u8,
    /// How many records stand in front of it.
    pub(crate) count: usize,
    /// Its offset in the file.
    pub(crate) at: usize,
}

/// The gate behind at most so many records of a file.
pub(crate) fn gate_behind(file: &[u8], most: usize) -> Result<Gate, FileFault>
    requires { 10 ≤ length file.now }
    ensures placed { IfOk result (IsPlaced most file.now) }
    ensures err { IfErr result (IsUnplaced most file.now) }
{
    let version = version_of(file)?;
    let (count, at) = walk(version, &file[HEADER..], most)?;
    Ok(Gate {
        version,
        count,
        at: HEADER + at,
    })
}
