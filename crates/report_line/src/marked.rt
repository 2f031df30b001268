//! Reports as lines give them.

ghost use Rattle.std.specs.Prelude.{◌≡◌, ◌↔◌, IsTrue, IfOk};
ghost use Rattle.report_line.specs.Reports.{unmarked};

use crate::packed::PackedReport;
use crate::shared::Shared;
use std::alloc::AllocError;

/// A report and its epoch: the number of the newest settlement to whose line its process had returned when it made the step, 0 before
/// any. What was undone is told apart by it.
#[derive(Drop)]
pub struct MarkedReport {
    /// The epoch, which a line spells behind its first word where it is not 0.
    pub epoch: u32,
    /// The report.
    pub report: Shared<PackedReport>,
}

impl MarkedReport {
    /// The report without a mark, which is of epoch 0.
    pub fn unmarked(report: Shared<PackedReport>) -> MarkedReport
        ensures { result ≡ unmarked report }
    {
        MarkedReport { epoch: 0, report }
    }

    /// The same once more. It shares the report's block, and takes no memory.
    pub fn share(&self) -> Result<MarkedReport, AllocError>
        ensures { IfOk result (λ m. m ≡ self.now) }
    {
        Ok(MarkedReport {
            epoch: self.epoch,
            report: self.report.share()?,
        })
    }

    /// Whether the two are one report with one epoch.
    pub fn equal(&self, other: &MarkedReport) -> bool
        ensures { IsTrue result ↔ (self.now ≡ other.now) }
    {
        self.epoch == other.epoch && self.report.equal(&other.report)
    }
}
