//! A store of records in a record file.

ghost use Rattle.std.specs.Prelude.{◌≡◌, ◌≢◌, ◌↔◌, ◌+◌, ◌≤◌, List, [], ◌∷◌, ◌++◌, length, true, false, vec_len, IfOk, IfErr, IsOk, OnOk, MatchResult};
ghost use Rattle.line_disk.specs.Disk.{LeavesAlways, CountsDevice};
ghost use Rattle.record_file.specs.File.{Said, first_version, Stands, line_limit};
ghost use Rattle.record_file.specs.Kept.{said_in};
ghost use Rattle.record_file.specs.Opening.{IsOpenedWith, IsRefused, CountsFault, KeepsFile};

use crate::appended::Appended;
use crate::durable::write_durably;
use crate::fault::OpenFault;
use crate::filling::fill;
use crate::finishing::{SECOND_VERSION, finish_opening};
use crate::reading::{FIRST_VERSION, MAX_RECORD, OPEN};
use line_disk::{Disk, DiskFault};
use std::alloc::{AllocError, Global};

/// Room for one record and the gate behind it.
fn room(alloc: Global, n: usize) -> Result<Vec<u8>, AllocError>
    ensures { IfOk result (λ v. vec_len v ≡ n) }
{
    vec![in alloc; 0; n]
}

/// Records in a record file on a disk: lines, each with an epoch.
///
/// Once an append was answered Before or Unknown the store is stopped, until the file is opened anew.
pub struct Store<D: Disk> {
    disk: D,
    records: Vec<(u32, Vec<u8>)>,
    /// Room for one record and the gate behind it.
    buffer: Vec<u8>,
    /// The byte of the file that tells its version.
    version: u8,
    /// Where the bytes behind the closed gate begin.
    end: usize,
    stopped: bool,
    ghost room: { vec_len buffer ≡ 8199 },
    ghost gate: { 9 ≤ end },
    ghost in_file: { stopped ≡ false → D.keeps disk → end ≤ length (D.view disk).seen },
}

impl<D: Disk + Drop> Drop for Store<D> {
    fn drop(self) {
        let Store {
            disk: _,
            records: _,
            buffer: _,
            version: _,
            end: _,
            stopped: _,
        } = self;
    }
}

impl<D: Disk> Store<D> {
    ghost use Rattle.record_file.specs.Append.{OnDone, carried_over};
    ghost use Rattle.record_file.specs.Opening.{IsSynced, LeavesRefused};
    ghost use Rattle.record_file.specs.Store.{disk_of, found_records, is_stopped, version_of, HasRecords};
    ghost use Rattle.record_file.specs.StoreAppend.{IsAppend};

    /// Opens the file on a disk. It takes the memory that appends need. A fault hands the disk back.
    pub fn open(alloc: Global, disk: D) -> Result<Store<D>, (OpenFault, D)>
        ensures records { D.keeps disk → IfOk result (λ store. Stands (found_records store) (D.view disk).seen) }
        ensures ready { D.keeps disk → IfOk result (λ store. HasRecords D.view store (found_records store)) }
        ensures version { D.keeps disk → IfOk result (λ store. IsOpenedWith (version_of store) (D.view disk).seen) }
        ensures not_stopped { IfOk result (λ store. is_stopped store ≡ false) }
        ensures refused { D.keeps disk → IfErr result (λ e. IsRefused (D.view disk).seen e.0) }

        // What a crash at any moment of the call may leave.
        ensures any_moment { D.keeps disk → IfOk result (λ store. IsSynced (KeepsFile (D.view disk).seen) (D.view disk) (D.view (disk_of store))) }
        ensures any_moment_err { D.keeps disk → IfErr result (λ e. LeavesRefused e.0 (D.view disk) (D.view e.1)) }

        ensures cause { MatchResult result (λ store. D.failed (disk_of store) ≡ D.failed disk) (λ e. CountsFault e.0 (D.failed disk) (D.failed e.1)) }
        ensures premise { MatchResult result (λ store. D.keeps (disk_of store) ↔ D.keeps disk) (λ e. D.keeps e.1 ↔ D.keeps disk) }
    {
        let buffer = match room(alloc, MAX_RECORD) {
            Ok(buffer) => buffer,
            Err(_) => return Err((OpenFault::Memory, disk)),
        };
        let mut disk = disk;
        if disk.sync().is_err() {
            return Err((OpenFault::Device, disk));
        }
        match finish_opening(alloc, &mut disk) {
            Ok((version, records, end)) => Ok(Store {
                disk,
                records,
                buffer,
                version,
                end,
                stopped: false,
            }),
            Err(fault) => Err((fault, disk)),
        }
    }

    /// The epochs and the lines of the records that the store found when it was opened, and of those that were added since.
    pub fn records(&self) -> &[(u32, Vec<u8>)]
        ensures { said_in result.now ≡ found_records self.now }
    {
        &self.records
    }

    /// Puts a record behind those that the store found. This is done in memory only: no call of the device is made, and the file is not
    /// asked whether it has the record. On `Err` the store is as it was.
    pub fn add_found(&mut self, epoch: u32, line: Vec<u8>) -> Result<(), AllocError>
        ensures found { OnOk result (found_records self.new ≡ found_records self.old ++ (epoch, line.items) ∷ []) }
        ensures unchanged { IfErr result (λ _. found_records self.new ≡ found_records self.old) }
        ensures disk { disk_of self.new ≡ disk_of self.old }
        ensures stopped { is_stopped self.new ≡ is_stopped self.old }
        ensures version { version_of self.new ≡ version_of self.old }
        ensures rests { (said : List Said) → HasRecords D.view self.old said → HasRecords D.view self.new said }
    {
        self.records.push((epoch, line))?;
        Ok(())
    }

    /// Whether an append was answered Before or Unknown since the store was opened.
    pub fn stopped(&self) -> bool
        ensures { result ≡ is_stopped self.now }
    {
        self.stopped
    }

    /// Gives the disk back.
    pub fn close(self) -> D
        ensures { result ≡ disk_of self }
    {
        let Store {
            disk,
            records: _,
            buffer: _,
            version: _,
            end: _,
            stopped: _,
        } = self;
        disk
    }

    /// Makes a file of the first version one of the second, before its first append. Each other file is left as it is.
    fn carry_over(&mut self) -> Result<(), DiskFault>
        requires runs { is_stopped self.old ≡ false }
        ensures same_records { (said : List Said) → D.keeps (disk_of self.old) → HasRecords D.view self.old said → OnOk result (HasRecords D.view self.new said) }
        ensures any_moment { (said : List Said) → D.keeps (disk_of self.old) → HasRecords D.view self.old said
            → LeavesAlways (Stands said) (D.view (disk_of self.old)) (D.view (disk_of self.new)) }
        ensures version { OnOk result (version_of self.new ≡ carried_over (version_of self.old)) }
        ensures stops { (is_stopped self.new ≡ false) ↔ IsOk result }
        ensures cause { CountsDevice result (D.failed (disk_of self.old)) (D.failed (disk_of self.new)) }
        ensures premise { D.keeps (disk_of self.new) ↔ D.keeps (disk_of self.old) }
        ensures found { found_records self.new ≡ found_records self.old }
    {
        if self.version != FIRST_VERSION {
            return Ok(());
        }
        if write_durably(&mut self.disk, 7, &[SECOND_VERSION]).is_err() {
            self.stopped = true;
            return Err(DiskFault::Device);
        }
        self.version = SECOND_VERSION;
        Ok(())
    }

    /// Adds a record to a file of the second version.
    fn place(&mut self, epoch: u32, line: &[u8]) -> Appended
        requires some { 1 ≤ length line.now }
        requires fits { length line.now ≤ line_limit }
        requires runs { is_stopped self.old ≡ false }
        requires second { version_of self.old ≢ first_version }

        ensures append { IsAppend D.keeps D.view D.failed self.old (epoch, line.now) self.new result }
        ensures goes_on { result ≢ Appended.Stopped }
        ensures version { version_of self.new ≡ version_of self.old }
    {
        let n = fill(&mut self.buffer, epoch, line);
        if write_durably(&mut self.disk, self.end, &self.buffer[..n]).is_err() {
            self.stopped = true;
            return Appended::Before;
        }
        if write_durably(&mut self.disk, self.end - 1, &[OPEN]).is_err() {
            self.stopped = true;
            return Appended::Unknown;
        }
        self.end += n;
        Appended::Done
    }

    /// Adds a record. Once it is Done, each crash leaves a file that has it. The first one makes a file of the first version one of
    /// the second.
    pub fn append(&mut self, epoch: u32, line: &[u8]) -> Appended
        requires some { 1 ≤ length line.now }
        requires fits { length line.now ≤ line_limit }

        ensures append { IsAppend D.keeps D.view D.failed self.old (epoch, line.now) self.new result }

        // A file of the first version is carried over, and each other one keeps its version.
        ensures version { OnDone result (version_of self.new ≡ carried_over (version_of self.old)) }

        // A stopped store makes no call of the device, and no other answer comes from one.
        ensures stopped { (result ≡ Appended.Stopped) ↔ (is_stopped self.old ≡ true) }
        ensures unchanged { result ≡ Appended.Stopped → self.new ≡ self.old }
    {
        if self.stopped {
            return Appended::Stopped;
        }
        let Ok(()) = self.carry_over() else {
            return Appended::Before;
        };
        self.place(epoch, line)
    }
}
