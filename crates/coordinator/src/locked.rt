//! What lies under the lock.

ghost use Rattle.std.specs.Prelude.{◌≡◌, ◌+◌, ◌≤◌, length, unwrap_or, IfSome};
ghost use Rattle.desk.specs.DeskTurn.{IsDeskTurn};
ghost use Rattle.desk.specs.Files.{IsShort};
ghost use Rattle.desk.specs.Records.{IsReadOff};
ghost use Rattle.coordinator.specs.Passes.{front_of, ledger_parts, pass_limit};

use crate::entry::Entry;
use crate::fault::CallFault;
use crate::pass::Pass;
use crate::progress::Progress;
use chains::Chains;
use desk::{Desk, Receipt, TurnFault};
use line_disk::Disk;
use report_line::{Call, Reply};
use std::alloc::Global;
use std::sync::ledger::{Blank, Book, Ledger, Share};

/// How many passes a coordinator hands out.
const PASSES: u32 = 8_192;

/// The desk, the book that counts its turns, and the share that no pass has.
pub struct Locked<L: Ledger, D: Disk> {
    desk: Desk<D>,
    book: Book<L>,
    rest: Share<L>,
    passes: u32,
    ghost counted: { book.total ≡ length desk.turns },
    ghost unused: { rest.amount ≡ 0 },
    ghost parts: { rest.parts + passes ≡ ledger_parts },
    ghost few: { passes ≤ pass_limit },
}

impl<L: Ledger, D: Disk + Drop> Drop for Locked<L, D> {
    fn drop(self) {
        let Locked {
            desk: _,
            book: _,
            rest: _,
            passes: _,
        } = self;
    }
}

impl<L: Ledger, D: Disk> Locked<L, D> {
    ghost use Rattle.std.specs.Prelude.{◌≡◌, ◌+◌, ◌<◌, ◌≤◌, [], length, IfOk, IfErr, OnOk, OnErr, IfSome, IfNone, OnSome, Some, None};
    ghost use Rattle.chains.specs.Processes.{known};
    ghost use Rattle.desk.specs.Files.{IsShort};
    ghost use Rattle.desk.specs.Records.{IsReadOff};
    ghost use Rattle.coordinator.specs.Passes.{new_pass};
    ghost use Rattle.coordinator.specs.Calls.{IsTurnFor, IsDue, IsTakenFor};
    ghost use Rattle.coordinator.specs.Standing.{IsStandingTurn, IsMadeWith};

    /// The desk under a new book.
    pub fn new(blank: Blank, desk: Desk<D>) -> Locked<L, D>
        requires name { blank.name ≡ L.name }
        requires parts { (blank.parts ≡ L.parts) × (blank.parts ≡ ledger_parts) }
        requires fresh { desk.turns ≡ [] }
        ensures { result.desk ≡ desk }
    {
        let (book, rest) = blank.open::<L>();
        Locked {
            desk,
            book,
            rest,
            passes: 0,
        }
    }

    /// The desk.
    pub fn into_desk(self) -> Desk<D>
        ensures { result ≡ self.desk }
    {
        let Locked {
            desk,
            book: _,
            rest: _,
            passes: _,
        } = self;
        desk
    }

    /// The desk behind a reference.
    pub fn desk(&self) -> &Desk<D>
        ensures { result.now ≡ self.now.desk }
    {
        &self.desk
    }

    /// How far the desk has come.
    pub fn progress(&self) -> Progress
        ensures turns { result.turns ≡ length self.now.desk.turns }
        ensures front { result.front ≡ self.now.desk.held.front }
        ensures processes { result.processes ≡ length (known self.now.desk.held.accepted) }
        ensures stopped { result.stopped ≡ self.now.desk.held.stopped }
    {
        self.desk.recall_lawful();
        Progress {
            turns: self.desk.turns().len() as u32,
            front: self.desk.front(),
            processes: self.desk.chains().count(),
            stopped: self.desk.stopped(),
        }
    }

    /// A pass with the next number, while there are some.
    pub fn pass(&mut self, alloc: Global) -> Option<Pass<L>>
        ensures some { IfSome result (λ p. p ≡ new_pass (self.old.passes + 1)) }
        ensures counted { OnSome result (self.new.passes ≡ self.old.passes + 1) }
        ensures none { IfNone result ((self.old.passes ≡ pass_limit) × (self.new ≡ self.old)) }
        ensures desk { self.new.desk ≡ self.old.desk }
    {
        if self.passes >= PASSES {
            return None;
        }
        let share = self.rest.split_off(1, 0);
        self.passes += 1;
        Some(Pass {
            number: self.passes,
            front: 0,
            share,
            entries: Vec::new(alloc),
        })
    }

    /// Makes one turn, and adds one entry to the pass. The line is what the call was read off, where there is one.
    pub fn turn(
        &mut self,
        pass: &mut Pass<L>,
        line: Option<&[u8]>,
        call: Call,
        copy: Call,
    ) -> Result<(), CallFault>
        requires copy { copy ≡ call }
        requires short { IsShort call }
        requires read { IfSome line (λ l. IsReadOff l.now call) }
        ensures ok { OnOk result (IsTurnFor self.old.desk self.new.desk pass.old call pass.new) }
        ensures stands { OnOk result (IsStandingTurn D.keeps D.view pass.old call pass.new) }
        ensures err { OnErr result ((self.new.desk ≡ self.old.desk) × (pass.new ≡ pass.old)) }
        ensures due { IfErr result (λ f. IsDue self.old.desk pass.old f) }
        ensures passes { self.new.passes ≡ self.old.passes }
    {
        self.desk.recall_lawful();
        let front = self.desk.front();
        let turns = self.desk.turns().len() as u32;
        let last = pass.last_turn();
        if pass.front > front || last > turns {
            return Err(CallFault::Foreign {
                front,
                seen: pass.front,
                turns,
                last,
            });
        }
        let Pass {
            number: _,
            front: seen,
            share,
            entries,
        } = pass;
        if entries.reserve(1).is_err() {
            return Err(CallFault::Memory);
        }
        let Locked { desk, book, .. } = self;
        let receipt = match make_turn(desk, line, call) {
            Ok(receipt) => receipt,
            Err(TurnFault::Worn) => return Err(CallFault::Worn),
            Err(TurnFault::Memory) => return Err(CallFault::Memory),
        };
        desk.recall_lawful();
        book.add(share, 1);
        *seen = seen_after(*seen, &receipt.reply);
        entries.push_reserved(Entry::new(copy, receipt));
        Ok(())
    }

    /// Makes the turn of a question for a line. Where its line is to be computed, and memory is there, the chains come with it.
    pub fn take(
        &mut self,
        pass: &mut Pass<L>,
        call: Call,
        copy: Call,
    ) -> Result<Option<Chains>, CallFault>
        requires copy { copy ≡ call }
        requires short { IsShort call }
        ensures ok { IfOk result (λ s. IsTakenFor self.old.desk self.new.desk pass.old call s pass.new) }
        ensures stands { IfOk result (λ s. IsMadeWith D.keeps D.view pass.old call s pass.new) }
        ensures err { OnErr result ((self.new.desk ≡ self.old.desk) × (pass.new ≡ pass.old)) }
        ensures due { IfErr result (λ f. IsDue self.old.desk pass.old f) }
        ensures passes { self.new.passes ≡ self.old.passes }
    {
        self.desk.recall_lawful();
        self.turn(pass, None, call, copy)?;
        self.desk.recall_lawful();
        let Some(_front) = pass.taken() else {
            return Ok(None);
        };
        match self.desk.snapshot() {
            Ok(chains) => Ok(Some(chains)),
            Err(_) => Ok(None),
        }
    }
}

/// The desk's turn of a call. The line is what it was read off, where there is one.
fn make_turn<D: Disk>(
    desk: &mut Desk<D>,
    line: Option<&[u8]>,
    call: Call,
) -> Result<Receipt, TurnFault>
    requires short { IsShort call }
    requires read { IfSome line (λ l. IsReadOff l.now call) }
    ensures turn { IsDeskTurn D.keeps D.view D.failed desk.old call desk.new result }
{
    match line {
        Some(line) => desk.turn_read(line, call),
        None => desk.turn(call),
    }
}

/// The front of a reply, or else the one seen before.
fn seen_after(seen: u32, reply: &Reply) -> u32
    ensures { result ≡ unwrap_or (front_of reply.now) seen }
{
    match reply {
        Reply::Accepted(front) | Reply::Old(front) | Reply::Taken(front) => *front,
        Reply::Settled { front, .. } => *front,
        _ => seen,
    }
}
