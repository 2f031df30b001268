//! What a process reports of itself.

ghost use Rattle.std.specs.Prelude.{◌≡◌, ◌↔◌, IsTrue, IfOk};

use crate::name::Name;
use crate::shared::Shared;
use id_tree::Id;
use stamp::Stamp;
use std::alloc::{AllocError, Global};

/// What a fork made.
#[derive(Drop)]
pub struct Forked {
    /// The part of the id that the process keeps.
    pub kept: Id,
    /// The child.
    pub child: Name,
    /// The part of the id that the child begins with.
    pub given: Id,
}

/// What a process did, of which it reports. What only some reports have stands apart, so that all of them are short.
#[derive(Drop)]
pub enum ReportKind {
    /// It took a checkpoint.
    Check,
    /// It is in this state, and stays in it until its next report.
    Present,
    /// It made a child. Of its id it keeps one part, and the child begins with the other one and the same events.
    Fork(Shared<Forked>),
    /// It ended, and its stamp goes to the target.
    Retire { target: Shared<Name> },
    /// It took up the stamp of a process that retired into it.
    Absorb { retired: Shared<Name> },
}

/// A report with a number.
#[derive(Drop)]
pub struct NumberedReport {
    /// The process that reports.
    pub process: Name,
    /// The number of the report among those of its process, counted from 1.
    pub number: u32,
    /// The stamp after the event: for a fork before the id is split, for an absorb behind the join.
    pub stamp: Stamp,
    /// What the process did.
    pub action: ReportKind,
}

/// What a process reports of itself, as it is put together.
#[derive(Drop)]
pub enum Report {
    /// The process is the root, and begins.
    Begin { process: Name },
    /// The process did something, and this report of it has a number.
    Numbered(NumberedReport),
}

impl Forked {
    /// Whether the two made the same.
    pub fn equal(&self, other: &Forked) -> bool
        ensures { IsTrue result ↔ (self.now ≡ other.now) }
    {
        self.kept.equal(&other.kept)
            && self.child.as_bytes() == other.child.as_bytes()
            && self.given.equal(&other.given)
    }
}

impl ReportKind {
    /// A child is made: of the id one part is kept, and the other one is given to the child.
    pub fn fork(alloc: Global, kept: Id, child: Name, given: Id) -> Result<ReportKind, AllocError>
        ensures { IfOk result (λ a. a ≡ ReportKind.Fork (record { kept = kept; child = child; given = given })) }
    {
        let forked = Shared::new(alloc, Forked { kept, child, given })?;
        Ok(ReportKind::Fork(forked))
    }

    /// The same with copies of the parts and of the name.
    pub fn fork_of(
        alloc: Global,
        kept: &Id,
        child: &Name,
        given: &Id,
    ) -> Result<ReportKind, AllocError>
        ensures { IfOk result (λ a. a ≡ ReportKind.Fork (record { kept = kept.now; child = child.now; given = given.now })) }
    {
        let kept = kept.copy(alloc)?;
        let given = given.copy(alloc)?;
        ReportKind::fork(alloc, kept, child.copy(), given)
    }
}
