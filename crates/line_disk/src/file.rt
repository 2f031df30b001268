//! A disk over a file of the system. What a crash leaves of such a file no clause can say: it is what the device `P` says, and all
//! that is said of crashes stands under the premise that this device keeps the model.
//!
//! That the calls noted here are the calls made is read in this file, and not proved.

ghost use Rattle.std.specs.Prelude.{◌≡◌, ◌≢◌, ◌↔◌, ◌+◌, ◌^◌, ◌<◌, ◌≤◌, [], IfOk, IsSome, OnOk, length, take, drop, vec_len};
ghost use Rattle.line_disk.specs.Device.{KeepsModel};
ghost use Rattle.line_disk.specs.Disk.{Counts, CountsDevice, IsShortened, IsTorn, LeavesOnly, Passes, Rests, written};

use crate::file_shadow::FileShadow;
use crate::trouble::Failures;
use crate::{Device, Disk, DiskFault, FileCall, FileTrouble, Reach, Unopened};
use std::alloc::{AllocError, Global};
use std::fs::{File, OpenOptions, TryLockError};
use std::io::{self, ErrorKind};
use std::marker::PhantomData;
use std::os::unix::fs::{FileExt, MetadataExt};
use std::path::Path;
use std::rt::Files;

/// How many bytes of a file are read at once when it is opened.
const PIECE: usize = 65_536;

/// How many of its first bytes are written over themselves when a file is opened, and how many of its last ones.
const FIRST: usize = 512;

const LAST: usize = 16_384;

/// A file of the system on a device. It takes memory for the bytes that were read when it was opened, and for those that were
/// written within them or right behind them: reads are compared with them, and a read of others fails.
///
/// After a write, a cut or a sync has failed, each later call fails, and the file has to be opened anew. Where memory was wanting
/// for what was written, only reads of it and of what stands behind it fail.
pub struct FileDisk<P: Device> {
    file: File,
    shadow: FileShadow,
    failures: Failures,
    device: PhantomData<P>,
}

impl<P: Device> Drop for FileDisk<P> {
    fn drop(self) {
        let FileDisk {
            file: _,
            shadow: _,
            failures: _,
            device: _,
        } = self;
    }
}

fn zeros(alloc: Global, n: usize) -> Result<Vec<u8>, AllocError>
    ensures { IfOk result (λ v. vec_len v ≡ n) }
{
    vec![in alloc; 0; n]
}

/// The length of a file, in bytes.
fn length_of(file: &File) -> io::Result<usize> {
    match file.metadata() {
        Ok(metadata) => Ok(metadata.len() as usize),
        Err(error) => Err(error),
    }
}

/// The length of a file that was just opened, which has to be a regular one.
fn length_at_opening(file: &File) -> Result<usize, Unopened> {
    match file.metadata() {
        Ok(metadata) if metadata.is_file() => Ok(metadata.len() as usize),
        Ok(_) => Err(Unopened::Device(FileCall::Open.found_otherwise())),
        Err(error) => Err(FileCall::Measure.failed_by(error)),
    }
}

/// Reads the next bytes of a file, so many, behind its first ones, which were read before.
fn read_piece(file: &File, bytes: &mut Vec<u8>, n: usize) -> Result<(), Unopened>
    requires { vec_len bytes.old + n < 2 ^ 64 }
    ensures more { OnOk result (vec_len bytes.new ≡ vec_len bytes.old + n) }
    ensures before { OnOk result (take (vec_len bytes.old) bytes.new.items ≡ bytes.old.items) }
{
    let at = bytes.len();
    bytes.resize(at + n, 0)?;
    match file.read_exact_at(&mut bytes[at..], at as u64) {
        Ok(()) => Ok(()),
        Err(error) => Err(FileCall::Read.failed_by(error)),
    }
}

/// The first bytes of a file of this length, as far as they are wanted.
fn read_front<W: Reach>(
    alloc: Global,
    file: &File,
    len: usize,
    reach: &mut W,
) -> Result<Vec<u8>, Unopened>
    ensures { IfOk result (λ bytes. length bytes.items ≤ len) }
{
    let mut bytes = Vec::new(alloc);
    while bytes.len() < len && reach.wants_more(&bytes) {
        let n = (len - bytes.len()).min(PIECE);
        read_piece(file, &mut bytes, n)?;
    }
    Ok(bytes)
}

/// Writes these bytes, which a file of this length has at this offset, over themselves.
fn write_again(file: &File, bytes: &[u8], at: usize, len: usize) -> Result<(), Unopened> {
    let written = match look_for(file, len) {
        Ok(()) => file.write_all_at(bytes, at as u64),
        Err(error) => return Err(Unopened::Device(FileTrouble {
            call: FileCall::Write,
            error,
        })),
    };
    match written {
        Ok(()) => Ok(()),
        Err(error) => Err(FileCall::Write.failed_by(error)),
    }
}

/// Writes the first and the last of these bytes, with which a file of this length begins, over themselves.
///
/// After a sync that failed the system may show bytes that never reached the device, and count them as written: the next sync then
/// succeeds and writes nothing. Bytes that are written again are written to the device by the next sync. A program that writes
/// nothing after its first failure leaves none unwritten but these.
fn rewrite(file: &File, bytes: &[u8], len: usize) -> Result<(), Unopened> {
    let last = bytes.len().saturating_sub(LAST);
    if last > 0 {
        write_again(file, &bytes[..FIRST.min(last)], 0, len)?;
    }
    write_again(file, &bytes[last..], last, len)
}

/// Why the folder of a file was not synced.
fn folder_fault(error: io::Error) -> Unopened {
    if matches!(error.kind(), ErrorKind::OutOfMemory) {
        return Unopened::Memory;
    }
    FileCall::SyncFolder.failed_by(error)
}

/// Syncs this folder.
fn sync_named<R: Files<File = File>>(rt: &R, folder: &str) -> io::Result<()> {
    let opened = OpenOptions::new().read(true).open(rt, folder)?;
    opened.sync_all()
}

/// Syncs the folder that has the last name of this path.
fn sync_parent<R: Files<File = File>>(rt: &R, path: Path<'_>) -> Result<(), Unopened> {
    let Some(parent) = path.parent() else {
        return Err(Unopened::Device(FileCall::SyncFolder.found_otherwise()));
    };
    let name = parent.as_os_str();
    let folder = if name.is_empty() { "." } else { name };
    match sync_named(rt, folder) {
        Ok(()) => Ok(()),
        Err(error) => Err(folder_fault(error)),
    }
}

/// Syncs the folder of the file that a link of this path leads to.
fn sync_behind_link<R: Files<File = File>>(
    rt: &R,
    alloc: Global,
    path: &str,
) -> Result<(), Unopened> {
    let found = match rt.canonicalize(alloc, path) {
        Ok(found) => found,
        Err(error) => return Err(folder_fault(error)),
    };
    sync_parent(rt, found.as_path())
}

/// Syncs the folder of a file, so that a crash does not take the name of the file if it is new; and if the path is a link, that of the
/// file that the link leads to.
fn sync_folder<R: Files<File = File>>(rt: &R, alloc: Global, path: &str) -> Result<(), Unopened> {
    sync_parent(rt, Path::new(path))?;
    match rt.symlink_metadata(path) {
        Ok(metadata) if metadata.is_symlink() => sync_behind_link(rt, alloc, path),
        Ok(_) => Ok(()),
        Err(error) => Err(folder_fault(error)),
    }
}

/// Whether a file still has a name, and is no shorter than this. If not, that is a fault without an error of the system.
fn look_for(file: &File, len: usize) -> Result<(), Option<io::Error>> {
    match file.metadata() {
        Ok(metadata) if metadata.nlink() > 0 && metadata.len() >= len as u64 => Ok(()),
        other => Err(other.err()),
    }
}

/// Writes bytes to a file of this length. If the file was shortened, a write to its end would hide that, and is not made.
fn write_to(file: &File, bytes: &[u8], at: usize, len: usize) -> Result<(), Option<io::Error>> {
    if at == len {
        look_for(file, len)?;
    }
    match file.write_all_at(bytes, at as u64) {
        Ok(()) => Ok(()),
        Err(error) => Err(Some(error)),
    }
}

/// Cuts a file of this length to a lesser one. If the file was shortened, that could make it longer, and is not made.
fn cut_to(file: &File, to: usize, len: usize) -> Result<(), Option<io::Error>> {
    look_for(file, len)?;
    match file.set_len(to as u64) {
        Ok(()) => Ok(()),
        Err(error) => Err(Some(error)),
    }
}

/// Syncs the bytes and the length of a file that has a name and is no shorter than this.
fn sync_present(file: &File, len: usize) -> Result<(), Option<io::Error>> {
    look_for(file, len)?;
    // The bytes and the length reach the device. Times of change need not: no read after a crash looks at them.
    match file.sync_data() {
        Ok(()) => Ok(()),
        Err(error) => Err(Some(error)),
    }
}

/// The length of a file of this length once it is emptied, if it counts as new. A block that was never written is given back with that: on
/// ext4 the system writes it only once it is given out again.
fn emptied_if<W: Reach>(file: &File, len: usize, reach: &W) -> Result<usize, Unopened> {
    if len == 0 || !reach.is_new(len) {
        return Ok(len);
    }
    match file.set_len(0) {
        Ok(()) => Ok(0),
        Err(error) => Err(FileCall::Cut.failed_by(error)),
    }
}

/// Opens a file that no other program has open so, and locks it.
fn open_locked<R: Files<File = File>>(rt: &R, path: &str) -> Result<File, Unopened> {
    let opened = OpenOptions::new()
        .read(true)
        .write(true)
        .create(true)
        .open(rt, path);
    let file = match opened {
        Ok(file) => file,
        Err(error) => return Err(FileCall::Open.failed_by(error)),
    };
    match file.try_lock() {
        Ok(()) => Ok(file),
        Err(TryLockError::WouldBlock) => Err(Unopened::Device(FileCall::Lock.found_otherwise())),
        Err(TryLockError::Error(error)) => Err(FileCall::Lock.failed_by(error)),
    }
}

impl<P: Device> FileDisk<P> {
    ghost use Rattle.line_disk.specs.File.{file_calls, file_failures, file_trouble};

    /// Opens a file, and makes it if it is missing. It is read once, from its start and as far as `reach` wants it, and a copy of
    /// that is kept in memory. A file that another program has open so is not opened. If the file counts as new it is emptied, and its
    /// folder is synced.
    ///
    /// If the bytes are of the file's own format, its first 512 bytes and the last 16,384 of these are written over themselves: an
    /// earlier run may have left them unwritten when a sync failed. The first sync after that writes them to the device.
    pub fn open<R: Files<File = File>, W: Reach>(
        rt: &R,
        alloc: Global,
        path: &str,
        reach: &mut W,
    ) -> Result<FileDisk<P>, Unopened>
        ensures fresh { IfOk result (λ disk. file_calls disk ≡ []) }
        ensures failures { IfOk result (λ disk. file_failures disk ≡ 0) }
    {
        let file = open_locked(rt, path)?;
        let len = length_at_opening(&file)?;
        let len = emptied_if(&file, len, reach)?;
        let bytes = read_front(alloc, &file, len, reach)?;
        if len == 0 {
            sync_folder(rt, alloc, path)?;
        }
        if let Some(n) = reach.whole(&bytes) {
            rewrite(&file, &bytes[..n], len)?;
        }
        Ok(FileDisk {
            file,
            shadow: FileShadow::new(bytes, len),
            failures: Failures::none(),
            device: PhantomData,
        })
    }

    /// The first call that failed since the file was opened, if one did.
    pub fn trouble(&self) -> Option<FileTrouble>
        ensures told { result ≡ file_trouble self.now }
        ensures failed { IsSome result ↔ file_failures self.now ≢ 0 }
    {
        self.failures.first
    }
}

// The clauses of the trait once more, and which call is told of where one fails.
impl<P: Device> Disk for FileDisk<P> {
    ghost use Rattle.line_disk.specs.File.{file_failures, file_trouble, file_view};
    ghost use Rattle.line_disk.specs.FileReadIsLeft.{read_left};
    ghost use Rattle.line_disk.specs.Troubles.{TellsFirst};
    ghost use Rattle.line_disk.specs.declared.trouble.FileCall.TheVariants.{Measure, Read, Write, Cut, Sync};
    ghost use Rattle.line_disk.specs.working.FileShadow.{first_of, calls_of};

    ghost view = { λ disk. file_view P.leaves P.unread disk };

    ghost keeps = { λ disk. KeepsModel P.leaves };

    ghost failed = { λ disk. disk.failures.count };

    ghost read_is_left = { λ disk keeps. read_left P.leaves (first_of P.unread disk.shadow) (calls_of disk.shadow) keeps };

    fn failures(&self) -> u64 {
        self.failures.count
    }

    /// A length that is not the known one is a fault of the device.
    fn len(&mut self) -> Result<usize, DiskFault>
        ensures len { KeepsModel P.leaves → IfOk result (λ n. n ≡ length (file_view P.leaves P.unread self.old).seen) }
        ensures rests { KeepsModel P.leaves → Rests (file_view P.leaves P.unread self.old) (file_view P.leaves P.unread self.new) }
        ensures premise { KeepsModel P.leaves ↔ KeepsModel P.leaves }
        ensures cause { CountsDevice result (file_failures self.old) (file_failures self.new) }
        ensures trouble { TellsFirst Measure result (file_trouble self.old) (file_trouble self.new) }
    {
        let length = length_of(&self.file);
        match length {
            Ok(n) if !self.shadow.failed && n == self.shadow.len => Ok(n),
            other => Err(self.failures.add(FileCall::Measure, other.err())),
        }
    }

    /// Bytes that are not those that were written or read before are a fault of the device, and so are bytes of which there is no
    /// copy: for these no memory is taken.
    fn read_at(&mut self, alloc: Global, at: usize, n: usize) -> Result<Vec<u8>, DiskFault>
        requires { KeepsModel P.leaves → at + n ≤ length (file_view P.leaves P.unread self.old).seen }
        ensures n { IfOk result (λ bytes. length bytes.items ≡ n) }
        ensures bytes { KeepsModel P.leaves → IfOk result (λ bytes. bytes.items ≡ take n (drop at (file_view P.leaves P.unread self.old).seen)) }
        ensures rests { KeepsModel P.leaves → Rests (file_view P.leaves P.unread self.old) (file_view P.leaves P.unread self.new) }
        ensures premise { KeepsModel P.leaves ↔ KeepsModel P.leaves }
        ensures cause { Counts result (file_failures self.old) (file_failures self.new) }
        ensures trouble { TellsFirst Read result (file_trouble self.old) (file_trouble self.new) }
    {
        if !self.shadow.covers(at, n) {
            return Err(self.failures.add(FileCall::Read, None));
        }
        let mut bytes = zeros(alloc, n)?;
        let read = self.file.read_exact_at(&mut bytes, at as u64);
        if read.is_err() || !self.shadow.has(at, &bytes) {
            return Err(self.failures.add(FileCall::Read, read.err()));
        }
        Ok(bytes)
    }

    fn write_at(&mut self, at: usize, bytes: &[u8]) -> Result<(), DiskFault>
        requires { KeepsModel P.leaves → at ≤ length (file_view P.leaves P.unread self.old).seen }
        ensures written { KeepsModel P.leaves → OnOk result ((file_view P.leaves P.unread self.new).seen ≡ written (file_view P.leaves P.unread self.old).seen at bytes.now) }
        ensures crash { KeepsModel P.leaves → Passes (IsTorn at (length bytes.now)) (file_view P.leaves P.unread self.old) (file_view P.leaves P.unread self.new) }
        ensures fits { OnOk result (at + length bytes.now < 2 ^ 64) }
        ensures premise { KeepsModel P.leaves ↔ KeepsModel P.leaves }
        ensures cause { CountsDevice result (file_failures self.old) (file_failures self.new) }
        ensures trouble { TellsFirst Write result (file_trouble self.old) (file_trouble self.new) }
    {
        let fits = at.checked_add(bytes.len()).is_some();
        if self.shadow.failed || !fits || at > self.shadow.len {
            return Err(self.failures.add(FileCall::Write, None));
        }
        let written = write_to(&self.file, bytes, at, self.shadow.len);
        let done = written.is_ok();
        self.shadow.wrote(at, bytes, done);
        match written {
            Ok(()) => Ok(()),
            Err(error) => Err(self.failures.add(FileCall::Write, error)),
        }
    }

    fn cut(&mut self, len: usize) -> Result<(), DiskFault>
        requires { KeepsModel P.leaves → len ≤ length (file_view P.leaves P.unread self.old).seen }
        ensures cut { KeepsModel P.leaves → OnOk result ((file_view P.leaves P.unread self.new).seen ≡ take len (file_view P.leaves P.unread self.old).seen) }
        ensures crash { KeepsModel P.leaves → Passes (IsShortened len) (file_view P.leaves P.unread self.old) (file_view P.leaves P.unread self.new) }
        ensures premise { KeepsModel P.leaves ↔ KeepsModel P.leaves }
        ensures cause { CountsDevice result (file_failures self.old) (file_failures self.new) }
        ensures trouble { TellsFirst Cut result (file_trouble self.old) (file_trouble self.new) }
    {
        if self.shadow.failed || len > self.shadow.len {
            return Err(self.failures.add(FileCall::Cut, None));
        }
        let cut = cut_to(&self.file, len, self.shadow.len);
        let done = cut.is_ok();
        self.shadow.cut(len, done);
        match cut {
            Ok(()) => Ok(()),
            Err(error) => Err(self.failures.add(FileCall::Cut, error)),
        }
    }

    fn sync(&mut self) -> Result<(), DiskFault>
        ensures durable { KeepsModel P.leaves → OnOk result (LeavesOnly (file_view P.leaves P.unread self.new) (file_view P.leaves P.unread self.old).seen) }
        ensures rests { KeepsModel P.leaves → Rests (file_view P.leaves P.unread self.old) (file_view P.leaves P.unread self.new) }
        ensures premise { KeepsModel P.leaves ↔ KeepsModel P.leaves }
        ensures cause { CountsDevice result (file_failures self.old) (file_failures self.new) }
        ensures trouble { TellsFirst Sync result (file_trouble self.old) (file_trouble self.new) }
    {
        if self.shadow.failed {
            return Err(self.failures.add(FileCall::Sync, None));
        }
        let synced = sync_present(&self.file, self.shadow.len);
        let done = synced.is_ok();
        self.shadow.synced(done);
        match synced {
            Ok(()) => Ok(()),
            Err(error) => Err(self.failures.add(FileCall::Sync, error)),
        }
    }
}
