//! The operations of stamps.

ghost use Rattle.std.specs.Prelude.{◌≡◌, ◌<◌, IfOk, IfErr, IsErr};
ghost use Rattle.id_tree.specs.IdTree.{Zero};
ghost use Rattle.id_tree.specs.NormalForm.{depth_limit};
ghost use Rattle.id_tree.specs.Points.{Overlap};
ghost use Rattle.id_tree.specs.Split.{IsSplit, parts_depth};
ghost use Rattle.event_tree.specs.EventTree.{EventTree};
ghost use Rattle.event_tree.specs.Event.{IsEventStep, PassesLimit};
ghost use Rattle.event_tree.specs.Grown.{IsGrown};
ghost use Rattle.stamp.specs.Operations.{IsEvent, IsFork, IsNormalJoin, IsReceive, IsAbsorb, IsEventFault, IsForkFault, IsReceiveFault, IsAbsorbFault};

use crate::fault::StampFault;
use crate::stamp::Stamp;
use event_tree::{EventFault, Events};
use id_tree::{Id, SplitFault, SumFault};
use std::alloc::{AllocError, Global};

impl Stamp {
    /// An event of the owner of the stamp.
    pub fn event(&self, alloc: Global) -> Result<Stamp, StampFault>
        ensures event { IfOk result (λ t. IsEvent self.now t) }
        ensures grown { IfOk result (λ t. IsGrown self.now.id self.now.events t.events) }
        ensures err { IfErr result (λ fault. IsEventFault fault self.now.id self.now.events) }
        ensures full { PassesLimit self.now.id self.now.events → IsErr result }
    {
        let events = next_events(alloc, &self.id, &self.events)?;
        match self.id.copy(alloc) {
            Ok(id) => Ok(Stamp { id, events }),
            Err(_) => Err(StampFault::Memory),
        }
    }

    /// What a message carries: the events alone, with an id that owns nothing.
    pub fn peek(&self, alloc: Global) -> Result<Stamp, AllocError>
        ensures { IfOk result (λ t. t ≡ record { id = Zero; events = self.now.events }) }
    {
        match self.events.copy(alloc) {
            Ok(events) => Ok(Stamp {
                id: Id::zero(alloc),
                events,
            }),
            Err(fault) => Err(fault),
        }
    }

    /// A fork: an event, and then the id is split. Both stamps have the events after it; the first stays with the
    /// process, the second is the child's.
    pub fn fork(&self, alloc: Global) -> Result<(Stamp, Stamp), StampFault>
        ensures fork { IfOk result (λ halves. IsFork self.now halves.0 halves.1) }
        ensures split { IfOk result (λ halves. IsSplit self.now.id halves.0.id halves.1.id) }
        ensures grown { IfOk result (λ halves. IsGrown self.now.id self.now.events halves.0.events) }
        ensures err { IfErr result (λ fault. IsForkFault fault self.now) }
        ensures full { PassesLimit self.now.id self.now.events → IsErr result }
        ensures deep { depth_limit < parts_depth self.now.id → IsErr result }
    {
        let events = next_events(alloc, &self.id, &self.events)?;
        match self.id.split(alloc) {
            Ok((left, right)) => match events.copy(alloc) {
                Ok(copy) => Ok((
                    Stamp { id: left, events },
                    Stamp {
                        id: right,
                        events: copy,
                    },
                )),
                Err(_) => Err(StampFault::Memory),
            },
            Err(SplitFault::NothingOwned) => Err(StampFault::NothingOwned),
            Err(SplitFault::TooDeep) => Err(StampFault::TooDeep),
            Err(SplitFault::Memory) => Err(StampFault::Memory),
        }
    }

    /// A receive: the events are joined with those of a message, and then an event.
    pub fn receive(&self, alloc: Global, came: &Events) -> Result<Stamp, StampFault>
        ensures receive { IfOk result (λ t. IsReceive self.now came.now t) }
        ensures err { IfErr result (λ fault. IsReceiveFault fault self.now came.now) }
        ensures full { (joined : EventTree) → IsNormalJoin self.now.events came.now joined → PassesLimit self.now.id joined → IsErr result }
    {
        match self.events.join(alloc, came) {
            Ok(joined) => {
                joined.recall_facts();
                let events = next_events(alloc, &self.id, &joined)?;
                match self.id.copy(alloc) {
                    Ok(id) => Ok(Stamp { id, events }),
                    Err(_) => Err(StampFault::Memory),
                }
            }
            Err(_) => Err(StampFault::Memory),
        }
    }

    /// An absorption: an event on this stamp, and then the stamp of a retired process joins it.
    pub fn absorb(&self, alloc: Global, retired: &Stamp) -> Result<Stamp, StampFault>
        ensures absorb { IfOk result (λ t. IsAbsorb self.now retired.now t) }
        ensures err { IfErr result (λ fault. IsAbsorbFault fault self.now retired.now) }
        ensures full { PassesLimit self.now.id self.now.events → IsErr result }
        ensures overlap { Overlap self.now.id retired.now.id → IsErr result }
    {
        let after = next_events(alloc, &self.id, &self.events)?;
        match self.id.sum(alloc, &retired.id) {
            Ok(id) => match after.join(alloc, &retired.events) {
                Ok(events) => Ok(Stamp { id, events }),
                Err(_) => Err(StampFault::Memory),
            },
            Err(SumFault::Overlap) => Err(StampFault::Overlap),
            Err(SumFault::Memory) => Err(StampFault::Memory),
        }
    }
}

/// The events after an event of the owner of the id.
fn next_events(alloc: Global, id: &Id, events: &Events) -> Result<Events, StampFault>
    ensures step { IfOk result (λ after. IsEventStep id.now events.now after) }
    ensures grown { IfOk result (λ after. IsGrown id.now events.now after) }
    ensures err { IfErr result (λ fault. IsEventFault fault id.now events.now) }
    ensures full { PassesLimit id.now events.now → IsErr result }
{
    match events.event(alloc, id) {
        Ok(after) => Ok(after),
        Err(EventFault::NothingOwned) => Err(StampFault::NothingOwned),
        Err(EventFault::ClockFull) => Err(StampFault::ClockFull),
        Err(EventFault::Memory) => Err(StampFault::Memory),
    }
}
