//! What one process hands to another.

ghost use Rattle.std.specs.Prelude.{◌≡◌, ◌↔◌, IsTrue, IfOk};

use event_tree::Events;
use report_line::Name;
use stamp::Stamp;
use std::alloc::{AllocError, Global};

/// What goes with a message.
#[derive(Drop)]
pub struct Message {
    /// The epoch of the process that handed it over, first or once more.
    pub epoch: u32,
    /// What its sender knew behind the sending.
    pub events: Events,
}

/// What a child starts from. One child is born of it; behind a settlement that has it at its birth it returns to what it was then.
#[derive(Drop)]
pub struct Start {
    /// The child.
    pub child: Name,
    /// The epoch of its parent.
    pub epoch: u32,
    /// The stamp that it begins with.
    pub stamp: Stamp,
}

/// What a process leaves that ended. It is absorbed once, and once more where a settlement undid that.
#[derive(Drop)]
pub struct Retirement {
    /// The process that ended.
    pub process: Name,
    /// Its epoch.
    pub epoch: u32,
    /// The process that is to absorb it.
    pub target: Name,
    /// Its stamp.
    pub stamp: Stamp,
}

impl Message {
    /// Whether the two are one message.
    pub fn equal(&self, other: &Message) -> bool
        ensures { IsTrue result ↔ (self.now ≡ other.now) }
    {
        self.epoch == other.epoch && self.events.equal(&other.events)
    }

    /// The same message once more.
    pub fn copy(&self, alloc: Global) -> Result<Message, AllocError>
        ensures { IfOk result (λ m. m ≡ self.now) }
    {
        let events = self.events.copy(alloc)?;
        Ok(Message {
            epoch: self.epoch,
            events,
        })
    }
}

impl Start {
    /// Whether the two are one start.
    pub fn equal(&self, other: &Start) -> bool
        ensures { IsTrue result ↔ (self.now ≡ other.now) }
    {
        self.child == other.child && self.epoch == other.epoch && self.stamp.equal(&other.stamp)
    }

    /// The same start once more. One child is born of the two.
    pub fn copy(&self, alloc: Global) -> Result<Start, AllocError>
        ensures { IfOk result (λ s. s ≡ self.now) }
    {
        let stamp = self.stamp.copy(alloc)?;
        Ok(Start {
            child: self.child.copy(),
            epoch: self.epoch,
            stamp,
        })
    }
}

impl Retirement {
    /// Whether the two are one retirement.
    pub fn equal(&self, other: &Retirement) -> bool
        ensures { IsTrue result ↔ (self.now ≡ other.now) }
    {
        self.process == other.process
            && self.epoch == other.epoch
            && self.target == other.target
            && self.stamp.equal(&other.stamp)
    }

    /// The same retirement once more. One of the two is absorbed.
    pub fn copy(&self, alloc: Global) -> Result<Retirement, AllocError>
        ensures { IfOk result (λ r. r ≡ self.now) }
    {
        let stamp = self.stamp.copy(alloc)?;
        Ok(Retirement {
            process: self.process.copy(),
            epoch: self.epoch,
            target: self.target.copy(),
            stamp,
        })
    }
}
