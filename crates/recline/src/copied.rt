//! A desk over a copy of the bytes of a record file, which are only read.

ghost use Rattle.std.specs.Prelude.{◌≡◌, ◌≢◌, ◌≤◌, ℕ, List, [], IfErr, IfOk};
ghost use Rattle.desk.specs.Openings.{RefusesFile};
ghost use Rattle.desk.specs.declared.fault.DeskFault.TheVariants as opening;
ghost use Rattle.line_disk.specs.Disk.{LeavesOnly};
ghost use Rattle.line_disk.specs.Tape.{bytes_of, disk_failures, disk_view, plan_of, room_of};
ghost use Rattle.record_file.specs.File.{Stands};
ghost use Rattle.record_file.specs.Store.{found_records};
ghost use Rattle.recline.specs.working.Showing.{IsDeskOf};

use desk::{Desk, DeskFault};
use line_disk::MemoryDisk;
use record_file::{Store, files_are_of_one_kind};
use std::alloc::{AllocError, Global};

/// How many calls change a copy of a record file at most where nothing is accepted: those that cut a tail off.
const FEW_CHANGES: usize = 8;

/// A disk that holds a copy of these bytes. Opening them and answering questions over them takes no memory for what it notes of its calls, so
/// want of memory is none of the device.
pub fn copy_of(alloc: Global, bytes: &[u8]) -> Result<MemoryDisk, AllocError>
    ensures bytes { IfOk result (λ disk. bytes_of disk ≡ bytes.now) }
    ensures durable { IfOk result (λ disk. LeavesOnly (disk_view disk) bytes.now) }
    ensures no_call { IfOk result (λ disk. (disk_view disk).clock ≡ 0) }
    ensures never_failed { IfOk result (λ disk. disk_failures disk ≡ 0) }
    ensures no_plan { IfOk result (λ disk. plan_of disk ≡ []) }
    ensures room { IfOk result (λ disk. 8 ≤ room_of disk) }
{
    MemoryDisk::with_room(alloc, bytes, FEW_CHANGES)
}

/// The same fault, where a call of a disk in memory fails for want of memory alone.
fn in_memory(fault: DeskFault) -> DeskFault
    ensures refuses { (bytes : List ℕ) → RefusesFile bytes fault → RefusesFile bytes result }
    ensures file { result ≢ opening.Device }
{
    match fault {
        DeskFault::Device => DeskFault::Memory,
        DeskFault::Foreign => DeskFault::Foreign,
        DeskFault::Damaged(number) => DeskFault::Damaged(number),
        DeskFault::Line(number) => DeskFault::Line(number),
        DeskFault::Refused(number, code) => DeskFault::Refused(number, code),
        DeskFault::Memory => DeskFault::Memory,
    }
}

/// The desk over a copy of these bytes.
pub(crate) fn desk_of(alloc: Global, bytes: &[u8]) -> Result<Desk<MemoryDisk>, DeskFault>
    ensures desk { IfOk result (IsDeskOf bytes.now) }
    ensures refused { IfErr result (RefusesFile bytes.now) }
    ensures file { IfErr result (λ fault. fault ≢ opening.Device) }
{
    let Ok(disk) = copy_of(alloc, bytes) else {
        return Err(DeskFault::Memory);
    };
    match Desk::open(alloc, disk) {
        Ok(desk) => Ok(desk),
        Err((fault, _)) => Err(in_memory(fault)),
    }
}

/// The store over a copy of these bytes.
fn store_of(alloc: Global, bytes: &[u8]) -> Result<Store<MemoryDisk>, AllocError>
    ensures { IfOk result (λ store. Stands (found_records store) bytes.now) }
{
    let disk = copy_of(alloc, bytes)?;
    match Store::open(alloc, disk) {
        Ok(store) => Ok(store),
        Err(_) => Err(AllocError),
    }
}

/// The store over a copy of the bytes over which this desk was opened: so memory alone can be wanting, and its records are those of the desk.
pub(crate) fn store_behind(
    alloc: Global,
    bytes: &[u8],
    desk: &Desk<MemoryDisk>,
) -> Result<Store<MemoryDisk>, AllocError>
    requires { IsDeskOf bytes.now desk.now }
    ensures { IfOk result (λ store. found_records store ≡ desk.now.found) }
{
    files_are_of_one_kind();
    store_of(alloc, bytes)
}
