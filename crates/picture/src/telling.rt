//! What a picture tells of its steps, where one points at them.

use report_line::{Name, PackedReport, ReportKindView, ReportView, write_marked};
use std::alloc::{AllocError, Global};

/// A part of the texts.
#[derive(Clone, Copy)]
pub(crate) struct Said {
    from: usize,
    to: usize,
}

/// The texts, one behind the other.
#[derive(Drop)]
pub(crate) struct Texts {
    alloc: Global,
    bytes: Vec<u8>,
}

impl Said {
    /// No text.
    pub(crate) fn nothing() -> Said {
        Said { from: 0, to: 0 }
    }
}

impl Texts {
    pub(crate) fn new(alloc: Global) -> Texts {
        Texts {
            alloc,
            bytes: Vec::new(alloc),
        }
    }

    /// A text.
    pub(crate) fn get(&self, said: Said) -> &[u8] {
        if said.from <= said.to && said.to <= self.bytes.len() {
            &self.bytes[said.from..said.to]
        } else {
            b"".as_slice()
        }
    }

    /// Adds a name.
    pub(crate) fn name(&mut self, name: &Name) -> Result<Said, AllocError> {
        let from = self.bytes.len();
        self.bytes.extend_from_slice(name.as_bytes())?;
        Ok(Said {
            from,
            to: self.bytes.len(),
        })
    }

    /// Adds the line of a report of this epoch.
    fn line(&mut self, epoch: u32, report: &PackedReport) -> Result<(), AllocError> {
        let line = write_marked(self.alloc, epoch, report)?;
        self.bytes.extend_from_slice(&line)
    }

    /// Adds the stamp of the process that reports, and the line of its report of this epoch.
    pub(crate) fn report(&mut self, epoch: u32, report: &PackedReport) -> Result<Said, AllocError> {
        let from = self.bytes.len();
        match report.view() {
            ReportView::Begin { .. } => self.bytes.extend_from_slice(b"1;0")?,
            ReportView::Numbered(fields) => fields.stamp.write_to(&mut self.bytes)?,
        }
        self.bytes.push(b'\n')?;
        self.line(epoch, report)?;
        Ok(Said {
            from,
            to: self.bytes.len(),
        })
    }

    /// Adds the stamp of the child that a fork made, and the line of the fork.
    pub(crate) fn child(&mut self, epoch: u32, fork: &PackedReport) -> Result<Said, AllocError> {
        let from = self.bytes.len();
        if let ReportView::Numbered(fields) = fork.view()
            && let ReportKindView::Fork(forked) = fields.action
        {
            forked.given.write_to(&mut self.bytes)?;
            self.bytes.push(b';')?;
            fields.stamp.events.write_to(&mut self.bytes)?;
            self.bytes.push(b'\n')?;
        }
        self.line(epoch, fork)?;
        Ok(Said {
            from,
            to: self.bytes.len(),
        })
    }
}
