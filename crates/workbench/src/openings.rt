//! Whether an opening of a file writes to it.

use crate::fault::Result;
use line_disk::{FileDisk, Modelled};
use record_file::RecordReach;
use std::fs::{self, OpenOptions};
use std::time::UNIX_EPOCH;

/// Files: a record file with a record, one whose record is not whole, and one of another format.
const FILES: [(&str, &[u8]); 3] = [
    ("whole", b"RECLINE2\x01\x80\x07\0\0\0\0BEGIN a\0"),
    ("damaged", b"RECLINE2\x01\x80\x07"),
    ("foreign", b"another format"),
];

/// Makes a file of these bytes, and tells whether an opening writes to it, by the time of its last change.
fn is_written(rt: &HostRuntime, path: &str, bytes: &[u8]) -> Result<bool> {
    fs::write(rt, path, bytes)?;
    let file = OpenOptions::new().write(true).open(rt, path)?;
    file.set_modified(UNIX_EPOCH)?;
    drop(file);
    let disk: FileDisk<Modelled> = FileDisk::open(rt, rt.alloc(), path, &mut RecordReach::new())?;
    drop(disk);
    let changed = fs::metadata(rt, path)?.modified()?;
    Ok(changed != UNIX_EPOCH)
}

/// Opens files that it makes at this path, and tells of each whether the opening wrote to it.
pub fn put_openings(rt: &HostRuntime, path: &str) -> Result<()> {
    for (name, bytes) in FILES {
        let word = if is_written(rt, path, bytes)? {
            "written"
        } else {
            "left"
        };
        println!(rt; "{name} {word}")?;
    }
    fs::remove_file(rt, path)?;
    Ok(())
}
