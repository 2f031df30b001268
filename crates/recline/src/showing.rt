//! What a record file has.

ghost use Rattle.std.specs.Prelude.{◌≡◌, ◌≢◌, ℕ, List, IfOk, false, true};
ghost use Rattle.desk.specs.Openings.{RefusesFile};
ghost use Rattle.desk.specs.declared.fault.DeskFault.TheVariants as opening;
ghost use Rattle.earlier_file.specs.Facts.{AreFacts, IsUnread};
ghost use Rattle.recline.specs.Outcome.{Tells, open_fault_line};
ghost use Rattle.recline.specs.Showing.{ShowsFile, ShowsFront, ShowsPart};
ghost use Rattle.recline.specs.working.Showing.{IsDeskOf, IsTextOf};

use crate::copied::{desk_of, store_behind};
use crate::earlier::tell_no_front;
use crate::telling::{tell_unopened, write_all};
use client_link::Link;
use desk::{Desk, DeskFault};
use earlier_file::{EarlierFault, FileFacts, FileFault, facts, first_records};
use line_disk::MemoryDisk;
use record_show::{to_json, to_lines, to_table};
use std::alloc::{AllocError, Global};

/// How a record file is shown.
#[derive(Clone, Copy)]
pub struct Form {
    /// With each of its records.
    pub reports: bool,
    /// As one object of JSON.
    pub json: bool,
}

/// The table, and behind it the records, where they are asked for.
fn table_of(
    alloc: Global,
    bytes: &[u8],
    facts: FileFacts,
    desk: &Desk<MemoryDisk>,
    reports: bool,
) -> Result<Vec<u8>, AllocError>
    requires { IsDeskOf bytes.now desk.now }
    ensures { IfOk result (λ text. IsTextOf bytes.now facts desk.now (record { reports = reports; json = false }) text.items) }
{
    let mut text = to_table(desk.chains(), facts)?;
    if !reports {
        return Ok(text);
    }
    let store = store_behind(alloc, bytes, desk)?;
    let lines = to_lines(alloc, store.records())?;
    text.extend_from_slice(&lines)?;
    Ok(text)
}

/// The object of JSON, with the records, where they are asked for.
fn object_of(
    alloc: Global,
    bytes: &[u8],
    facts: FileFacts,
    desk: &Desk<MemoryDisk>,
    reports: bool,
) -> Result<Vec<u8>, AllocError>
    requires { IsDeskOf bytes.now desk.now }
    ensures { IfOk result (λ text. IsTextOf bytes.now facts desk.now (record { reports = reports; json = true }) text.items) }
{
    if !reports {
        return to_json(desk.chains(), facts, None);
    }
    let store = store_behind(alloc, bytes, desk)?;
    to_json(desk.chains(), facts, Some(store.records()))
}

/// What is shown of a record file that has these bytes, over which this desk was opened.
fn text_of(
    alloc: Global,
    bytes: &[u8],
    facts: FileFacts,
    desk: &Desk<MemoryDisk>,
    form: Form,
) -> Result<Vec<u8>, AllocError>
    requires { IsDeskOf bytes.now desk.now }
    ensures { IfOk result (λ text. IsTextOf bytes.now facts desk.now form text.items) }
{
    if form.json {
        object_of(alloc, bytes, facts, desk, form.reports)
    } else {
        table_of(alloc, bytes, facts, desk, form.reports)
    }
}

/// Shows all of a record file, or tells that it could not be done; answers the status.
fn show_all<K: Link, F: Link>(
    alloc: Global,
    bytes: &[u8],
    facts: FileFacts,
    desk: &Desk<MemoryDisk>,
    form: Form,
    client: &mut K,
    faults: &mut F,
) -> u8
    requires facts { AreFacts bytes.now facts }
    requires desk { IsDeskOf bytes.now desk.now }
    ensures { ShowsFile K.told F.told bytes.now form client.old client.new faults.old faults.new result }
{
    let Ok(text) = text_of(alloc, bytes, facts, desk, form) else {
        tell_unopened(faults, DeskFault::Memory);
        return 3;
    };
    match write_all(client, &text) {
        Ok(()) => 0,
        Err(_) => {
            tell_unopened(faults, DeskFault::Device);
            3
        }
    }
}

/// How many records stand in front of what a file is refused for, where it is refused for one of them.
fn records_before(fault: DeskFault) -> Option<usize> {
    match fault {
        DeskFault::Damaged(number) | DeskFault::Line(number) | DeskFault::Refused(number, _) =>
            number.checked_sub(1),
        DeskFault::Foreign | DeskFault::Device | DeskFault::Memory => None,
    }
}

/// What is shown of a copy of a file's first records, over which this desk was opened. So many bytes of the file stand behind them.
fn copied_text(
    alloc: Global,
    copy: &[u8],
    told: FileFacts,
    tail: usize,
    desk: &Desk<MemoryDisk>,
    form: Form,
) -> Result<Vec<u8>, DeskFault>
    requires { IsDeskOf copy.now desk.now }
{
    let facts = FileFacts {
        version: told.version,
        records: told.records,
        tail,
    };
    match text_of(alloc, copy, facts, desk, form) {
        Ok(text) => Ok(text),
        Err(_) => Err(DeskFault::Memory),
    }
}

/// What is shown of such a copy, over a desk of its own.
fn text_of_copy(alloc: Global, copy: &[u8], tail: usize, form: Form) -> Result<Vec<u8>, DeskFault> {
    let told = match facts(copy) {
        Ok(told) => told,
        Err(fault) => return Err(fault_of(fault)),
    };
    match desk_of(alloc, copy) {
        Ok(desk) => copied_text(alloc, copy, told, tail, &desk, form),
        Err(fault) => Err(fault),
    }
}

/// The first records of a file, so many, as they are shown: what stands behind them is its tail.
fn first_text(alloc: Global, bytes: &[u8], count: usize, form: Form) -> Result<Vec<u8>, DeskFault> {
    match first_records(alloc, bytes, count) {
        Ok(copy) => text_of_copy(alloc, &copy, bytes.len().saturating_sub(copy.len()), form),
        Err(_) => Err(DeskFault::Memory),
    }
}

/// What stands in front of this fault, as it is shown. Records in front of damage may be refused themselves, and then it is those in front of
/// the first that is.
fn text_before(alloc: Global, bytes: &[u8], form: Form, fault: DeskFault) -> Option<Vec<u8>> {
    match first_text(alloc, bytes, records_before(fault)?, form) {
        Ok(text) => Some(text),
        Err(fault) => match first_text(alloc, bytes, records_before(fault)?, form) {
            Ok(text) => Some(text),
            Err(_) => None,
        },
    }
}

/// Shows what stands in front of the fault for which a record file is refused, as far as that can be done.
fn show_before<K: Link>(alloc: Global, bytes: &[u8], form: Form, fault: DeskFault, client: &mut K) {
    let Some(text) = text_before(alloc, bytes, form, fault) else {
        return;
    };
    // Whether it was written or not, what is told is the fault of the file.
    let _written = write_all(client, &text);
}

/// The same, and tells the fault; answers the status.
fn show_part<K: Link, F: Link>(
    alloc: Global,
    bytes: &[u8],
    form: Form,
    fault: DeskFault,
    client: &mut K,
    faults: &mut F,
) -> u8
    requires refuses { RefusesFile bytes.now fault }
    requires file { fault ≢ opening.Device }
    ensures { ShowsPart F.told bytes.now faults.old faults.new result }
{
    show_before(alloc, bytes, form, fault, client);
    tell_unopened(faults, fault);
    3
}

/// Why the bytes of a record file cannot be read, as it is told of a file that is opened.
fn fault_of(fault: FileFault) -> DeskFault
    ensures refuses { (bytes : List ℕ) → IsUnread bytes fault → RefusesFile bytes result }
    ensures file { result ≢ opening.Device }
{
    match fault {
        FileFault::Foreign => DeskFault::Foreign,
        FileFault::Damaged(number) => DeskFault::Damaged(number),
    }
}

/// The command `show`: shows the client what a record file of these bytes has; where it is refused what stands in front of the fault, which it
/// tells. Answers the status of the process. The bytes are only read.
pub fn show_on<K: Link, F: Link>(
    alloc: Global,
    bytes: &[u8],
    form: Form,
    client: &mut K,
    faults: &mut F,
) -> u8
    ensures { ShowsFile K.told F.told bytes.now form client.old client.new faults.old faults.new result }
{
    let told = match facts(bytes) {
        Ok(told) => told,
        Err(fault) => return show_part(alloc, bytes, form, fault_of(fault), client, faults),
    };
    match desk_of(alloc, bytes) {
        Ok(desk) => show_all(alloc, bytes, told, &desk, form, client, faults),
        Err(fault) => show_part(alloc, bytes, form, fault, client, faults),
    }
}

/// Why a file has no such first records, as it is told of a file that is opened; none where it has too few, or where memory is wanting.
fn fault_before(fault: EarlierFault) -> Option<DeskFault> {
    match fault {
        EarlierFault::Damaged(number) => Some(DeskFault::Damaged(number)),
        EarlierFault::Foreign | EarlierFault::Short(_) | EarlierFault::Memory => None,
    }
}

/// Shows, as `show_on` does, the file as it was when it had its first records alone, so many. Where one of these is damaged, what stands in
/// front of it is shown, too.
pub fn show_front_on<K: Link, F: Link>(
    alloc: Global,
    bytes: &[u8],
    front: u32,
    form: Form,
    client: &mut K,
    faults: &mut F,
) -> u8
    ensures { ShowsFront K.told F.told front bytes.now form client.old client.new faults.old faults.new result }
{
    match first_records(alloc, bytes, front as usize) {
        Ok(earlier) => show_on(alloc, &earlier, form, client, faults),
        Err(fault) => {
            if let Some(damage) = fault_before(fault) {
                show_before(alloc, bytes, form, damage, client);
            }
            tell_no_front(faults, fault);
            3
        }
    }
}
