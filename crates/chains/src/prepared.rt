//! A report between its tests and its acceptance.

ghost use Rattle.std.specs.Prelude.{◌≡◌};

use report_line::{MarkedReport, PackedReport};
use std::marker::Model;

/// A report that passed all tests, with the number of its process where that is known, and room for a process that is born
/// by it.
#[derive(Drop)]
pub struct Ready {
    pub(crate) report: MarkedReport,
    pub(crate) process: u32,
    pub(crate) stable: Vec<u32>,
}

impl Model for Ready {
    ghost use Rattle.chains.specs.Ready.{ReadyReport, ready_code};

    ghost Value = { ReadyReport };

    ghost coded = { ready_code };

    ghost use Rattle.chains.specs.working.Birth.{ready_in, HasBirthRoom};

    ghost view = { ready_in };

    ghost invariant = { HasBirthRoom };
}

impl Ready {
    /// The report.
    pub fn report(&self) -> &PackedReport
        ensures { result.now ≡ self.now.report.report }
    {
        &self.report.report
    }

    /// Its epoch.
    pub fn epoch(&self) -> u32
        ensures { result ≡ self.now.report.epoch }
    {
        self.report.epoch
    }
}

/// What `Chains::prepare` answers, for `Chains::commit`.
#[derive(Drop)]
pub enum Prepared {
    /// The report is the last accepted one of its process, or the `BEGIN` that was accepted, at this front.
    Old(u32),
    /// The report passed all tests, and there is room for it.
    Ready(Ready),
}
