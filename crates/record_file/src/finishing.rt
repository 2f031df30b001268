//! Opening, from behind the first sync on: what a file on the disk has, and its end.

ghost use Rattle.std.specs.Prelude.{◌≡◌, ◌↔◌, ◌≤◌, IfOk, IfErr, MatchResult};
ghost use Rattle.line_disk.specs.Disk.{LeavesOnly, LeavesAlways};
ghost use Rattle.record_file.specs.File.{Stands};
ghost use Rattle.record_file.specs.Kept.{said_in};
ghost use Rattle.record_file.specs.Resting.{IsAtRest};
ghost use Rattle.record_file.specs.Opening.{IsOpenedWith, IsRefused, CountsFault, KeepsFile, OnRefused};

use crate::durable::{cut_durably, write_durably};
use crate::fault::OpenFault;
use crate::pieces::read_file;
use line_disk::Disk;
use std::alloc::Global;

/// The header of a new file, and a closed gate.
const NEW_FILE: [u8; 9] = *b"RECLINE2\0";

/// The version of a new file.
pub(crate) const SECOND_VERSION: u8 = b'2';

/// Finds the version and the records of a file that is on the disk, and makes it end behind its closed gate, at the answer's
/// offset.
pub(crate) fn finish_opening<D: Disk>(
    alloc: Global,
    disk: &mut D,
) -> Result<(u8, Vec<(u32, Vec<u8>)>, usize), OpenFault>
    requires { D.keeps disk.old → LeavesOnly (D.view disk.old) (D.view disk.old).seen }
    ensures records { D.keeps disk.old → IfOk result (λ r. Stands (said_in r.1.items) (D.view disk.old).seen) }
    ensures version { D.keeps disk.old → IfOk result (λ r. IsOpenedWith r.0 (D.view disk.old).seen) }
    ensures at_rest { D.keeps disk.old → IfOk result (λ r. IsAtRest r.0 (said_in r.1.items) r.2 (D.view disk.new)) }
    ensures end { IfOk result (λ r. 9 ≤ r.2) }
    ensures refused { D.keeps disk.old → IfErr result (IsRefused (D.view disk.old).seen) }
    ensures any_moment { D.keeps disk.old → LeavesAlways (KeepsFile (D.view disk.old).seen) (D.view disk.old) (D.view disk.new) }
    ensures untouched { D.keeps disk.old → IfErr result (λ e. OnRefused e
        (LeavesAlways (λ c. c ≡ (D.view disk.old).seen) (D.view disk.old) (D.view disk.new))) }
    ensures cause { MatchResult result (λ _. D.failed disk.new ≡ D.failed disk.old) (λ e. CountsFault e (D.failed disk.old) (D.failed disk.new)) }
    ensures premise { D.keeps disk.new ↔ D.keeps disk.old }
{
    let len = disk.len()?;
    if len <= 9 {
        write_durably(disk, 0, &NEW_FILE)?;
        return Ok((SECOND_VERSION, Vec::new(alloc), 9));
    }
    let (version, records, end) = read_file(alloc, disk, len)?;
    if end < len {
        cut_durably(disk, end)?;
    }
    Ok((version, records, end))
}
