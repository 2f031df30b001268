//! Reports in the shape in which they are kept.

ghost use Rattle.std.specs.Prelude.{◌≡◌, ◌≢◌, ◌↔◌, Some, IsTrue, IfOk};
ghost use Rattle.report_line.specs.declared.call.Call.TheVariants as calls;
ghost use Rattle.report_line.specs.Reports.{process_of, number_of, unmarked};
ghost use Rattle.report_line.specs.Spelling.{IsAction, HasSpelling};
ghost use Rattle.report_line.specs.View.{ShowsReport, action_of, numbered_of};

use crate::name::Name;
use crate::report::{Forked, NumberedReport, Report, ReportKind};
use crate::shared::Shared;
use stamp::Stamp;
use std::alloc::{AllocError, Global};
use std::marker::Model;

// A kind for each action: an action beside the fields would have a tag of its own, which takes 8 bytes.
#[derive(Drop)]
pub(crate) enum Packed {
    Begin {
        process: Name,
    },
    Check {
        process: Name,
        number: u32,
        stamp: Stamp,
    },
    Present {
        process: Name,
        number: u32,
        stamp: Stamp,
    },
    Fork {
        process: Name,
        number: u32,
        stamp: Stamp,
        forked: Shared<Forked>,
    },
    Retire {
        process: Name,
        number: u32,
        stamp: Stamp,
        target: Shared<Name>,
    },
    Absorb {
        process: Name,
        number: u32,
        stamp: Stamp,
        retired: Shared<Name>,
    },
}

/// A report in the shape in which it is kept, of 160 bytes; seen as the report.
pub struct PackedReport {
    packed: Packed,
}

impl Drop for PackedReport {
    fn drop(self) {
        let PackedReport { packed: _ } = self;
    }
}

impl Model for PackedReport {
    ghost use Rattle.report_line.specs.declared.report.Report.{Report};
    ghost use Rattle.report_line.specs.working.Codes.{report_code};
    ghost use Rattle.report_line.specs.View.{unpacked};

    ghost Value = { Report };

    ghost coded = { report_code };

    ghost view = { λ r. unpacked r.packed };
}

/// An action by reference, read off a report.
#[derive(Clone, Copy)]
pub enum ReportKindView<'a> {
    /// It took a checkpoint.
    Check,
    /// It is in this state, and stays in it until its next report.
    Present,
    /// It made a child.
    Fork(&'a Forked),
    /// It ended, and its stamp goes to the target.
    Retire { target: &'a Name },
    /// It took up the stamp of a process that retired into it.
    Absorb { retired: &'a Name },
}

/// The fields of a report with a number, by reference.
#[derive(Clone, Copy)]
pub struct NumberedView<'a> {
    /// The process that reports.
    pub process: &'a Name,
    /// The number of the report among those of its process, counted from 1.
    pub number: u32,
    /// The stamp after the event.
    pub stamp: &'a Stamp,
    /// What the process did.
    pub action: ReportKindView<'a>,
}

/// The fields of a report, by reference.
#[derive(Clone, Copy)]
pub enum ReportView<'a> {
    /// The process is the root, and begins.
    Begin { process: &'a Name },
    /// The process did something, and this report of it has a number.
    Numbered(NumberedView<'a>),
}

impl<'a> ReportKindView<'a> {
    /// Tells a proof that what stands behind the stamp has a spelling.
    fn recall_facts(self)
        ensures { IsAction (action_of self.entry) }
    {
        match self {
            ReportKindView::Check => {}
            ReportKindView::Present => {}
            ReportKindView::Fork(forked) => {
                forked.kept.recall_facts();
                let _name = forked.child.as_bytes();
                forked.given.recall_facts();
            }
            ReportKindView::Retire { target } => {
                let _name = target.as_bytes();
            }
            ReportKindView::Absorb { retired } => {
                let _name = retired.as_bytes();
            }
        }
    }

    /// Whether the two are one action.
    pub fn equal(self, other: ReportKindView<'a>) -> bool
        ensures { IsTrue result ↔ (action_of self.entry ≡ action_of other.entry) }
    {
        match (self, other) {
            (ReportKindView::Check, ReportKindView::Check) => true,
            (ReportKindView::Present, ReportKindView::Present) => true,
            (ReportKindView::Fork(f), ReportKindView::Fork(g)) => f.equal(g),
            (ReportKindView::Retire { target: p }, ReportKindView::Retire { target: q }) => {
                p.as_bytes() == q.as_bytes()
            }
            (ReportKindView::Absorb { retired: p }, ReportKindView::Absorb { retired: q }) => {
                p.as_bytes() == q.as_bytes()
            }
            _ => false,
        }
    }
}

impl<'a> NumberedView<'a> {
    /// Whether the two are one report.
    pub fn equal(self, other: NumberedView<'a>) -> bool
        ensures { IsTrue result ↔ (numbered_of self.entry ≡ numbered_of other.entry) }
    {
        self.number == other.number
            && self.process.as_bytes() == other.process.as_bytes()
            && self.stamp.equal(other.stamp)
            && self.action.equal(other.action)
    }
}

impl PackedReport {
    /// The report in this shape. It takes no memory.
    #[inline(always)]
    pub fn of(report: Report) -> PackedReport
        ensures { result ≡ report }
    {
        let packed = match report {
            Report::Begin { process } => Packed::Begin { process },
            Report::Numbered(
                NumberedReport {
                    process,
                    number,
                    stamp,
                    action,
                },
            ) => match action {
                ReportKind::Check => Packed::Check {
                    process,
                    number,
                    stamp,
                },
                ReportKind::Present => Packed::Present {
                    process,
                    number,
                    stamp,
                },
                ReportKind::Fork(forked) => Packed::Fork {
                    process,
                    number,
                    stamp,
                    forked,
                },
                ReportKind::Retire { target } => Packed::Retire {
                    process,
                    number,
                    stamp,
                    target,
                },
                ReportKind::Absorb { retired } => Packed::Absorb {
                    process,
                    number,
                    stamp,
                    retired,
                },
            },
        };
        PackedReport { packed }
    }

    /// The fields of the report.
    #[inline(always)]
    pub fn view(&self) -> ReportView<'_>
        ensures { ShowsReport result self.now }
    {
        match &self.packed {
            Packed::Begin { process } => ReportView::Begin { process },
            Packed::Check {
                process,
                number,
                stamp,
            } => ReportView::Numbered(NumberedView {
                process,
                number: *number,
                stamp,
                action: ReportKindView::Check,
            }),
            Packed::Present {
                process,
                number,
                stamp,
            } => ReportView::Numbered(NumberedView {
                process,
                number: *number,
                stamp,
                action: ReportKindView::Present,
            }),
            Packed::Fork {
                process,
                number,
                stamp,
                forked,
            } => ReportView::Numbered(NumberedView {
                process,
                number: *number,
                stamp,
                action: ReportKindView::Fork(forked),
            }),
            Packed::Retire {
                process,
                number,
                stamp,
                target,
            } => ReportView::Numbered(NumberedView {
                process,
                number: *number,
                stamp,
                action: ReportKindView::Retire { target },
            }),
            Packed::Absorb {
                process,
                number,
                stamp,
                retired,
            } => ReportView::Numbered(NumberedView {
                process,
                number: *number,
                stamp,
                action: ReportKindView::Absorb { retired },
            }),
        }
    }

    /// Tells a proof that the report has a line: of its fields only a number that is 0 is never written.
    pub fn recall_facts(&self)
        ensures { number_of self.now ≢ Some 0 → HasSpelling (calls.Report (unmarked self.now)) }
    {
        match self.view() {
            ReportView::Begin { process } => {
                let _name = process.as_bytes();
            }
            ReportView::Numbered(fields) => {
                let _name = fields.process.as_bytes();
                fields.stamp.recall_facts();
                fields.action.recall_facts();
            }
        }
    }

    /// The process that reports.
    pub fn process(&self) -> &Name
        ensures { result.now ≡ process_of self.now }
    {
        match self.view() {
            ReportView::Begin { process } => process,
            ReportView::Numbered(report) => report.process,
        }
    }

    /// The number of the report, which a `BEGIN` has not.
    pub fn number(&self) -> Option<u32>
        ensures { result ≡ number_of self.now }
    {
        match self.view() {
            ReportView::Begin { .. } => None,
            ReportView::Numbered(report) => Some(report.number),
        }
    }

    /// The same report once more. What stands in a block of its own is shared.
    pub fn copy(&self, alloc: Global) -> Result<PackedReport, AllocError>
        ensures { IfOk result (λ r. r ≡ self.now) }
    {
        let packed = match &self.packed {
            Packed::Begin { process } => Packed::Begin {
                process: process.copy(),
            },
            Packed::Check {
                process,
                number,
                stamp,
            } => Packed::Check {
                process: process.copy(),
                number: *number,
                stamp: stamp.copy(alloc)?,
            },
            Packed::Present {
                process,
                number,
                stamp,
            } => Packed::Present {
                process: process.copy(),
                number: *number,
                stamp: stamp.copy(alloc)?,
            },
            Packed::Fork {
                process,
                number,
                stamp,
                forked,
            } => Packed::Fork {
                process: process.copy(),
                number: *number,
                stamp: stamp.copy(alloc)?,
                forked: forked.share()?,
            },
            Packed::Retire {
                process,
                number,
                stamp,
                target,
            } => Packed::Retire {
                process: process.copy(),
                number: *number,
                stamp: stamp.copy(alloc)?,
                target: target.share()?,
            },
            Packed::Absorb {
                process,
                number,
                stamp,
                retired,
            } => Packed::Absorb {
                process: process.copy(),
                number: *number,
                stamp: stamp.copy(alloc)?,
                retired: retired.share()?,
            },
        };
        Ok(PackedReport { packed })
    }

    /// Whether the two are one report.
    pub fn equal(&self, other: &PackedReport) -> bool
        ensures { IsTrue result ↔ (self.now ≡ other.now) }
    {
        match (self.view(), other.view()) {
            (ReportView::Begin { process: p }, ReportView::Begin { process: q }) => {
                p.as_bytes() == q.as_bytes()
            }
            (ReportView::Numbered(r), ReportView::Numbered(s)) => r.equal(s),
            _ => false,
        }
    }
}
