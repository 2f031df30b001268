//! Questions over a record file.

ghost use Rattle.recline.specs.Asking.{IsOneLine};

use crate::files::{bytes_of, explain_disk, open_file, records_of};
use crate::reporting::{ReportedDisk, Reporter};
use crate::telling::Teller;
use client_link::Link;
use line_disk::{Disk, FileDisk, Modelled};
use recline::{Form, Question, ask_on, check_on, copy_of, show_front_on, show_on};
use std::alloc::Global;
use std::sync::Wait;

/// Checks the certificate that the client gives over this disk. It stands alone, since its clause is long.
fn check<D: Disk, K: Link, F: Link>(
    alloc: Global,
    disk: D,
    client: &mut K,
    faults: &mut F,
) -> (u8, D) {
    check_on(alloc, disk, client, faults)
}

/// The same over the disk of the record file of this path.
fn check_over_disk<T: Wait + Drop, K: Link, F: Link>(
    teller: Teller<'_>,
    path: &str,
    disk: FileDisk<Modelled>,
    client: &mut K,
    faults: &mut F,
) -> u8 {
    let disk = ReportedDisk::new(disk, None::<Reporter<T>>);
    let (status, disk) = check(teller.rt.alloc(), disk, client, faults);
    explain_disk(teller, path, &disk.disk);
    status
}

/// The same over a copy of these bytes of a record file.
fn check_over_copy<K: Link, F: Link>(
    teller: Teller<'_>,
    bytes: &[u8],
    client: &mut K,
    faults: &mut F,
) -> u8 {
    let alloc = teller.rt.alloc();
    match copy_of(alloc, bytes) {
        Ok(disk) => {
            let (status, _disk) = check(alloc, disk, client, faults);
            status
        }
        Err(_) => teller.fault("memory"),
    }
}

/// Checks the certificate that the client gives over the record file of this path; or over a copy of its first records, if a front is
/// given.
pub(crate) fn check_over_file<T: Wait + Drop, K: Link, F: Link>(
    teller: Teller<'_>,
    path: &str,
    at: Option<u32>,
    client: &mut K,
    faults: &mut F,
) -> u8 {
    if at.is_none() {
        return match open_file(teller, path) {
            Ok(disk) => check_over_disk::<T, _, _>(teller, path, disk, client, faults),
            Err(status) => status,
        };
    }
    match records_of(teller, path, at, faults) {
        Ok(bytes) => check_over_copy(teller, &bytes, client, faults),
        Err(status) => status,
    }
}

/// Asks one question over a copy of these records. It stands alone, since its clauses are long.
fn ask<K: Link, F: Link>(
    alloc: Global,
    bytes: &[u8],
    question: &Question<'_>,
    client: &mut K,
    faults: &mut F,
) -> u8
    requires { IsOneLine question.now }
{
    ask_on(alloc, bytes, question, client, faults)
}

/// Asks one question over a copy of the records of this path, or of its first ones.
pub(crate) fn ask_over_file<K: Link, F: Link>(
    teller: Teller<'_>,
    path: &str,
    at: Option<u32>,
    question: &Question<'_>,
    client: &mut K,
    faults: &mut F,
) -> u8
    requires { IsOneLine question.now }
{
    match records_of(teller, path, at, faults) {
        Ok(bytes) => ask(teller.rt.alloc(), &bytes, question, client, faults),
        Err(status) => status,
    }
}

/// Asks for the line of these failed processes, which is one line.
pub(crate) fn ask_line<K: Link, F: Link>(
    teller: Teller<'_>,
    path: &str,
    names: &str,
    at: Option<u32>,
    client: &mut K,
    faults: &mut F,
) -> u8 {
    match Question::for_line(names.as_bytes()) {
        Some(question) => ask_over_file(teller, path, at, &question, client, faults),
        None => teller.misused("no name has a line feed in it"),
    }
}

/// Shows these first records. It stands alone, since its clause is long.
fn show_front<K: Link, F: Link>(
    alloc: Global,
    bytes: &[u8],
    front: u32,
    form: Form,
    client: &mut K,
    faults: &mut F,
) -> u8 {
    show_front_on(alloc, bytes, front, form, client, faults)
}

/// Shows all records. It stands alone, since its clause is long.
fn show<K: Link, F: Link>(
    alloc: Global,
    bytes: &[u8],
    form: Form,
    client: &mut K,
    faults: &mut F,
) -> u8 {
    show_on(alloc, bytes, form, client, faults)
}

/// Shows what a record file of these bytes has, or its first records.
fn show_bytes<K: Link, F: Link>(
    alloc: Global,
    bytes: &[u8],
    at: Option<u32>,
    form: Form,
    client: &mut K,
    faults: &mut F,
) -> u8 {
    match at {
        Some(front) => show_front(alloc, bytes, front, form, client, faults),
        None => show(alloc, bytes, form, client, faults),
    }
}

/// Shows what the record file of this path has, or its first records.
pub(crate) fn show_file<K: Link, F: Link>(
    teller: Teller<'_>,
    path: &str,
    at: Option<u32>,
    form: Form,
    client: &mut K,
    faults: &mut F,
) -> u8 {
    match bytes_of(teller, path, faults) {
        Ok(bytes) => show_bytes(teller.rt.alloc(), &bytes, at, form, client, faults),
        Err(status) => status,
    }
}
