//! Reading the bytes of a record file.

ghost use Rattle.std.specs.Prelude.{◌≡◌, ◌↔◌, ◌≢◌, ◌⊎◌, ◌*◌, ◌/◌, ◌%◌, ◌+◌, ◌-◌, ◌<◌, ◌≤◌, ◌++◌, [], ◌∷◌, ℕ, List, IsTrue, IfOk, IfErr, IfSome, IfNone, length, get_or, take, drop, slice_index};
ghost use Rattle.std.specs.Int.{w32, to_be_bytes};
ghost use Rattle.record_file.specs.File.{magic, IsLine, IsNoRecord, line_limit};
ghost use Rattle.record_file.specs.Kept.{said_in};
ghost use Rattle.record_file.specs.Reading.{IsSplit, IsSoFar, IsWalkFault};

use crate::filling::LONG;
use std::alloc::{AllocError, AllocFailed, Global};

const MAGIC: [u8; 7] = *b"RECLINE";

/// The byte behind it, in a file of the first version. Each other byte there tells the second.
pub(crate) const FIRST_VERSION: u8 = b'1';

/// An open gate.
pub(crate) const OPEN: u8 = 1;

const MAX_LINE: usize = 8192;

/// How many bytes the longest record takes with the gate behind it.
pub(crate) const MAX_RECORD: usize = 8199;

/// Why bytes are read as no records.
#[derive(Clone, Copy, Debug, PartialEq, Eq)]
pub(crate) enum ReadFault {
    Foreign,
    Damaged(usize),
    Memory,
}

impl From<AllocError> for ReadFault {
    ghost use Rattle.record_file.specs.declared.reading.ReadFault.TheVariants.{Memory};

    ghost from_gives = { λ _ e. e ≡ Memory };

    fn from(_: AllocError) -> Self {
        ReadFault::Memory
    }
}

impl<T: Drop> From<AllocFailed<T>> for ReadFault {
    ghost use Rattle.record_file.specs.declared.reading.ReadFault.TheVariants.{Memory};

    ghost from_gives = { λ _ e. e ≡ Memory };

    fn from(_: AllocFailed<T>) -> Self {
        ReadFault::Memory
    }
}

/// The line of so many bytes that the bytes begin with, and what stands behind it from its gate on.
fn split_line(n: usize, bytes: &[u8]) -> Option<(&[u8], &[u8])>
    ensures none { IfNone result ((n ≡ 0) ⊎ (line_limit < n) ⊎ (length bytes.now ≤ n)) }
    ensures line { IfSome result (λ r. IsLine r.0.now) }
    ensures size { IfSome result (λ r. length r.0.now ≡ n) }
    ensures gate { IfSome result (λ r. 0 < length r.1.now) }
    ensures bytes { IfSome result (λ r. bytes.now ≡ r.0.now ++ r.1.now) }
{
    if n == 0 || n > MAX_LINE || bytes.len() <= n {
        return None;
    }
    Some(bytes.split_at(n))
}

/// The epoch that the bytes begin with, the line of so many bytes behind it, and what stands behind that from its gate on.
fn split_long(n: usize, bytes: &[u8]) -> Option<(u32, &[u8], &[u8])>
    ensures none { IfNone result ((n ≡ 0) ⊎ (line_limit < n) ⊎ (length bytes.now ≤ n + 4)) }
    ensures line { IfSome result (λ r. IsLine r.1.now) }
    ensures size { IfSome result (λ r. length r.1.now ≡ n) }
    ensures gate { IfSome result (λ r. 0 < length r.2.now) }
    ensures bytes { IfSome result (λ r. bytes.now ≡ to_be_bytes w32 r.0 ++ (r.1.now ++ r.2.now)) }
{
    let [a, b, c, d, rest @ ..] = bytes else {
        return None;
    };
    let (line, behind) = split_line(n, rest)?;
    Some((u32::from_be_bytes([*a, *b, *c, *d]), line, behind))
}

/// The record that the bytes begin with, in a file with this version byte in its header: its epoch, its line, and the bytes after it,
/// the first of which is its gate. `None` if they begin with no record: its first two bytes are missing or out of range, or the bytes
/// end before that gate. The first version is the byte `1`, and each other byte is the second.
pub fn split_record(version: u8, bytes: &[u8]) -> Option<(u32, &[u8], &[u8])>
    ensures none { IfNone result (IsNoRecord version bytes.now) }
    ensures some { IfSome result (λ r. IsSplit version r.0 r.1.now r.2.now bytes.now) }
{
    let [high, low, rest @ ..] = bytes else {
        return None;
    };
    let word = *high as usize * 256 + *low as usize;
    if word <= MAX_LINE {
        let (line, behind) = split_line(word, rest)?;
        return Some((0, line, behind));
    }
    if version == FIRST_VERSION || word <= LONG {
        return None;
    }
    split_long(word - LONG, rest)
}

/// Puts the records behind open gates at the end of the list, and says where the gate stands at which that stops: one that is
/// closed, or, where the file goes on behind these bytes, one whose record may do so.
pub(crate) fn walk(
    alloc: Global,
    version: u8,
    bytes: &[u8],
    last: bool,
    records: &mut Vec<(u32, Vec<u8>)>,
) -> Result<usize, ReadFault>
    requires { 0 < length bytes.now }
    ensures inside { IfOk result (λ n. n < length bytes.now) }
    ensures walked { (file behind : List ℕ) → IsSoFar version file (said_in records.old.items) (bytes.now ++ behind)
        → IfOk result (λ n. IsSoFar version file (said_in records.new.items) (drop n bytes.now ++ behind)) }
    ensures closed { IfOk result (λ n. IsTrue last → get_or bytes.now n 0 ≢ 1) }
    ensures damaged { (file behind : List ℕ) → IsSoFar version file (said_in records.old.items) (bytes.now ++ behind)
        → (IsTrue last → behind ≡ []) → IfErr result (IsWalkFault version file) }
{
    let mut at = 0;
    while bytes[at] == OPEN {
        let (_, after) = bytes.split_at(at + 1);
        let Some((epoch, line, behind)) = split_record(version, after) else {
            if last || after.len() >= MAX_RECORD {
                return Err(ReadFault::Damaged(records.len() + 1));
            }
            return Ok(at);
        };
        records.push((epoch, line.to_vec(alloc)?))?;
        at = bytes.len() - behind.len();
    }
    Ok(at)
}

/// Whether the bytes are of a record file, by the first of them.
pub(crate) fn begins_with_magic(bytes: &[u8]) -> bool
    ensures { IsTrue result ↔ (take 7 bytes.now ≡ magic) }
{
    bytes.starts_with(&MAGIC)
}
