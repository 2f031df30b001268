//! A stamp and its text.

ghost use Rattle.std.specs.Prelude.{◌≡◌, ◌<◌, ◌==◌, IfSome, length};
ghost use Rattle.std.specs.List.{position};
ghost use Rattle.stamp.specs.working.Answers.{IdTold, EventsTold, answer_of};

use crate::fault::StampTextFault;
use event_tree::{Events, EventsFault};
use id_tree::{Id, IdFault};
use std::alloc::{AllocError, Global};

/// What a process, a message or a report carries: an id, and how many events are known at each point.
#[derive(Drop)]
pub struct Stamp {
    pub id: Id,
    pub events: Events,
}

impl Stamp {
    ghost use Rattle.std.specs.Prelude.{◌≡◌, ◌↔◌, ◌++◌, IsTrue, IfOk, IfErr, MatchResult, OnOk, OnErr, take, length};
    ghost use Rattle.id_tree.specs.IdTree.{One};
    ghost use Rattle.event_tree.specs.EventTree.{Leaf};
    ghost use Rattle.stamp.specs.declared.stamp.Stamp.{Stamp};
    ghost use Rattle.stamp.specs.Stamps.{IsStamp, stamp_text};
    ghost use Rattle.stamp.specs.Faults.{IsFaultOfStamp};

    /// `1;0`, the stamp of a root at its birth. It takes no memory.
    pub fn first(alloc: Global) -> Stamp
        ensures { result ≡ record { id = One; events = Leaf 0 } }
    {
        Stamp {
            id: Id::one(alloc),
            events: Events::zero(alloc),
        }
    }

    /// Tells a proof what holds of each stamp.
    pub fn recall_facts(&self)
        ensures { IsStamp self.now }
    {
        self.id.recall_facts();
        self.events.recall_facts();
    }

    /// Whether the two are one stamp.
    pub fn equal(&self, other: &Stamp) -> bool
        ensures { IsTrue result ↔ (self.now ≡ other.now) }
    {
        self.id.equal(&other.id) && self.events.equal(&other.events)
    }

    /// The same stamp once more.
    pub fn copy(&self, alloc: Global) -> Result<Stamp, AllocError>
        ensures { IfOk result (λ s. s ≡ self.now) }
    {
        Stamp::of_both(alloc, &self.id, &self.events)
    }

    /// The stamp of copies of this id and these events.
    pub fn of_both(alloc: Global, id: &Id, events: &Events) -> Result<Stamp, AllocError>
        ensures { IfOk result (λ s. s ≡ record { id = id.now; events = events.now }) }
    {
        let id = id.copy(alloc)?;
        let events = events.copy(alloc)?;
        Ok(Stamp { id, events })
    }

    /// The stamp that the bytes spell, all of the bytes.
    pub fn parse(alloc: Global, bytes: &[u8]) -> Result<Stamp, StampTextFault>
        ensures ok { IfOk result (λ s. bytes.now ≡ stamp_text s) }
        ensures err { IfErr result (λ fault. IsFaultOfStamp fault bytes.now) }
        ensures only { (s : Stamp) → IsStamp s → bytes.now ≡ stamp_text s → MatchResult result (λ t. t ≡ s) (λ fault. fault ≡ StampTextFault.Memory) }
    {
        let Some(at) = first_semicolon(bytes) else {
            return Err(StampTextFault::Syntax);
        };
        both(
            read_id(alloc, &bytes[..at]),
            read_events(alloc, &bytes[at + 1..]),
        )
    }

    /// Appends the one text of the stamp. On a refused growth `out` is as it was.
    pub fn write_to(&self, out: &mut Vec<u8>) -> Result<(), AllocError>
        ensures ok { OnOk result (out.new.items ≡ out.old.items ++ stamp_text self.now) }
        ensures err { OnErr result (out.new.items ≡ out.old.items) }
    {
        let before = out.len();
        let written = self.write(out);
        if written.is_err() {
            out.truncate(before);
        }
        written
    }

    fn write(&self, out: &mut Vec<u8>) -> Result<(), AllocError>
        ensures ok { OnOk result (out.new.items ≡ out.old.items ++ stamp_text self.now) }
        ensures err { OnErr result (take (length out.old.items) out.new.items ≡ out.old.items) }
    {
        self.id.write_to(out)?;
        out.push(b';')?;
        self.events.write_to(out)
    }
}

// Where the id's text ends.
fn first_semicolon(bytes: &[u8]) -> Option<usize>
    ensures place { result ≡ position (λ b. b == 59) bytes.now }
    ensures within { IfSome result (λ at. at < length bytes.now) }
{
    bytes.iter().position(|byte| *byte == b';')
}

fn read_id(alloc: Global, text: &[u8]) -> Result<Id, IdFault>
    ensures { IdTold result text.now }
{
    let id = Id::parse(alloc, text)?;
    id.recall_facts();
    Ok(id)
}

fn read_events(alloc: Global, text: &[u8]) -> Result<Events, EventsFault>
    ensures { EventsTold result text.now }
{
    let events = Events::parse(alloc, text)?;
    events.recall_facts();
    Ok(events)
}

// The fault of a stamp is the first of the order, whichever tree has it.
fn both(
    id: Result<Id, IdFault>,
    events: Result<Events, EventsFault>,
) -> Result<Stamp, StampTextFault>
    ensures { result ≡ answer_of id events }
{
    match (id, events) {
        (Ok(id), Ok(events)) => Ok(Stamp { id, events }),
        (Err(IdFault::Memory), _) | (_, Err(EventsFault::Memory)) => Err(StampTextFault::Memory),
        (Err(IdFault::Syntax), _) | (_, Err(EventsFault::Syntax)) => Err(StampTextFault::Syntax),
        (Err(IdFault::NotNormal), _) | (_, Err(EventsFault::NotNormal)) => {
            Err(StampTextFault::NotNormal)
        }
        (Err(IdFault::TooDeep), _) | (_, Err(EventsFault::TooDeep)) => Err(StampTextFault::TooDeep),
        (_, Err(EventsFault::TooLarge)) => Err(StampTextFault::TooLarge),
    }
}
