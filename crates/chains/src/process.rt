//! What is kept of a process.

ghost use Rattle.std.specs.Prelude.{◌≡◌, IfOk};
ghost use Rattle.chains.specs.working.Keeping.{view_of};

use std::alloc::{AllocError, Global};

/// What is kept of a process beside the accepted reports. Reports go by their indexes in the accepted list.
#[derive(Drop)]
pub struct Process {
    /// How many reports with a number are accepted of it.
    pub reports: u32,
    /// The last of them.
    pub last: Option<u32>,
    /// The report by which it is born.
    pub birth: u32,
    /// The reports that made its birth and its checkpoints.
    pub stable: Vec<u32>,
    /// From which of these elements on, counted from 0, all have one id.
    pub same_id_from: u32,
    /// Whether it retired and the retirement was absorbed.
    pub absorbed: bool,
}

impl Process {
    /// The same once more.
    pub fn copy(&self, alloc: Global) -> Result<Process, AllocError>
        ensures { IfOk result (λ copy. view_of copy ≡ view_of self.now) }
    {
        let stable = Vec::from_slice(alloc, &self.stable)?;
        Ok(Process {
            reports: self.reports,
            last: self.last,
            birth: self.birth,
            stable,
            same_id_from: self.same_id_from,
            absorbed: self.absorbed,
        })
    }
}
