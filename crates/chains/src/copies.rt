//! Copies of what chains keep.

ghost use Rattle.std.specs.Prelude.{◌≡◌, IfOk, map};
ghost use Rattle.chains.specs.working.Inside.{AreDistinctNames};
ghost use Rattle.chains.specs.working.Keeping.{view_of};

use crate::process::Process;
use indexmap::IndexSet;
use report_line::{Name, PackedReport, Shared};
use std::alloc::{AllocError, Global};

/// The same reports, in order.
pub fn share_all(
    alloc: Global,
    reports: &[Shared<PackedReport>],
) -> Result<Vec<Shared<PackedReport>>, AllocError>
    ensures { IfOk result (λ copy. copy.items ≡ reports.now) }
{
    let mut copy = Vec::with_capacity(alloc, reports.len())?;
    for report in reports {
        let same = report.share()?;
        copy.push(same)?;
    }
    Ok(copy)
}

/// The same names, in order.
pub fn copy_names(alloc: Global, names: &[Name]) -> Result<IndexSet<Name>, AllocError>
    requires { AreDistinctNames names.now }
    ensures { IfOk result (λ copy. copy.keys ≡ names.now) }
{
    let mut copy = IndexSet::with_capacity(alloc, names.len())?;
    for name in names {
        let Ok(_) = copy.insert(name.copy()) else {
            return Err(AllocError);
        };
    }
    Ok(copy)
}

/// What is kept of the same processes, in order.
pub fn copy_processes(alloc: Global, processes: &[Process]) -> Result<Vec<Process>, AllocError>
    ensures { IfOk result (λ copy. map view_of copy.items ≡ map view_of processes.now) }
{
    let mut copy = Vec::with_capacity(alloc, processes.len())?;
    for process in processes {
        let same = process.copy(alloc)?;
        copy.push(same)?;
    }
    Ok(copy)
}
