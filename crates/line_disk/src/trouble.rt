//! What the system said of a call of a file that failed.

ghost use Rattle.std.specs.Prelude.{◌≡◌, ◌≢◌, ◌↔◌, IsSome, None, Some};
ghost use Rattle.line_disk.specs.Disk.{one_more};
ghost use Rattle.line_disk.specs.Troubles.{KeepsFirst};
ghost use Rattle.line_disk.specs.declared.fault.DiskFault.TheVariants.{Device};
ghost use Rattle.line_disk.specs.declared.trouble.Unopened.TheVariants.{Memory};

use crate::DiskFault;
use crate::fault::device_failed;
use std::alloc::AllocError;
use std::io;
use thiserror::Error;

/// What was asked of the system.
#[derive(Clone, Copy, Debug, PartialEq, Eq)]
pub enum FileCall {
    Open,
    Lock,
    /// The length of the file.
    Measure,
    Read,
    Write,
    Cut,
    Sync,
    /// A sync of the folder of the file.
    SyncFolder,
}

/// A call of a file that failed, and why.
#[derive(Clone, Copy, Debug)]
pub struct FileTrouble {
    pub call: FileCall,
    /// The system's error. If there is none, the file is no regular file, another program has locked it, its length or its bytes are
    /// not those that are known of it, or it was removed or shortened.
    pub error: Option<io::Error>,
}

/// Why a file was not opened.
#[derive(Clone, Copy, Debug, Error)]
pub enum Unopened {
    /// A call failed, or another program has the file open.
    #[error("the device failed")]
    Device(FileTrouble),
    /// A growth was refused.
    #[error("out of memory")]
    Memory,
}

impl From<AllocError> for Unopened {
    ghost from_gives = { λ _ e. e ≡ Memory };

    fn from(_error: AllocError) -> Unopened {
        Unopened::Memory
    }
}

impl FileCall {
    /// That this call failed by an error of the system.
    pub(crate) fn failed_by(self, error: io::Error) -> Unopened {
        Unopened::Device(FileTrouble {
            call: self,
            error: Some(error),
        })
    }

    /// That the system gave no error, and the file is not what it has to be.
    pub(crate) fn found_otherwise(self) -> FileTrouble {
        FileTrouble {
            call: self,
            error: None,
        }
    }
}

/// How many calls of a file failed, and the first of them.
#[derive(Drop)]
pub(crate) struct Failures {
    pub count: u64,
    pub first: Option<FileTrouble>,
    ghost told: { IsSome first ↔ count ≢ 0 },
}

impl Failures {
    /// No call failed.
    pub fn none() -> Failures
        ensures { result.count ≡ 0 }
    {
        Failures {
            count: 0,
            first: None,
        }
    }

    /// Counts a call that failed, and keeps why if it is the first.
    pub fn add(&mut self, call: FileCall, error: Option<io::Error>) -> DiskFault
        ensures fault { result ≡ Device }
        ensures counted { self.new.count ≡ one_more self.old.count }
        ensures first { KeepsFirst call self.old.first self.new.first }
        ensures error { self.old.first ≡ None → self.new.first ≡ Some (record { call = call; error = error }) }
    {
        if self.first.is_none() {
            self.first = Some(FileTrouble { call, error });
        }
        device_failed(&mut self.count)
    }
}
