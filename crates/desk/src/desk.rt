//! The desk.

ghost use Rattle.std.specs.Prelude.{◌≡◌, ◌⊎◌, ◌↔◌, ◌≤◌, [], ℕ, List, true, false, IfOk, IfErr, IfSome, MatchResult, vec_capacity};
ghost use Rattle.line_disk.specs.Disk.{Leaves};
ghost use Rattle.record_file.specs.File.{Stands};
ghost use Rattle.record_file.specs.Kept.{said_in};
ghost use Rattle.chains.specs.Held.{held_of};
ghost use Rattle.desk.specs.working.Faults.{from_store};
ghost use Rattle.desk.specs.Records.{Opens};
ghost use Rattle.desk.specs.Desks.{records_of};
ghost use Rattle.desk.specs.Lawful.{turn_limit};
ghost use Rattle.desk.specs.Openings.{RefusesRecords};

use crate::answering::answered;
use crate::fault::DeskFault;
use crate::opening::admit_records;
use crate::renewing::take_in;
use crate::turn::{Receipt, Turn, TurnFault};
use chains::Chains;
use line_disk::Disk;
use record_file::{OpenFault, Store};
use report_line::Call;
use std::alloc::{AllocError, Global};
use std::marker::Model;

const TURN_LIMIT: usize = 65536;

/// What was accepted, whose records are in a file, and the turns that were made since it was opened. A desk that `renewed` returns
/// counts as opened at that moment.
pub struct Desk<D: Disk> {
    chains: Chains,
    /// The chains as they were when the desk was opened.
    opening: Chains,
    store: Store<D>,
    /// There is room for all of them.
    turns: Vec<Turn>,
}

impl<D: Disk + Drop> Drop for Desk<D> {
    fn drop(self) {
        let Desk {
            chains: _,
            opening: _,
            store: _,
            turns: _,
        } = self;
    }
}

impl<D: Disk> Model for Desk<D> {
    ghost use Rattle.std.specs.Prelude.{◌≡◌, ◌≤◌, false, vec_capacity};
    ghost use Rattle.record_file.specs.Store.{disk_of, is_stopped, HasRecords};
    ghost use Rattle.desk.specs.working.Codes.{desk_code};
    ghost use Rattle.desk.specs.Desks.{DeskState, records_of};
    ghost use Rattle.desk.specs.Inside.{desk_in};
    ghost use Rattle.desk.specs.Lawful.{IsLawfulDesk, turn_limit};

    ghost Value = { DeskState D };

    ghost coded = { desk_code D.code };

    ghost view = { desk_in };

    ghost invariant = { λ desk.
        IsLawfulDesk D.keeps D.view (desk_in desk)
        × (is_stopped desk.store ≡ false → D.keeps (disk_of desk.store) → HasRecords D.view desk.store (records_of (desk_in desk)))
        × (turn_limit ≤ vec_capacity desk.turns) };
}

/// Room for all turns.
fn room(alloc: Global) -> Result<Vec<Turn>, AllocError>
    ensures none { IfOk result (λ turns. turns.items ≡ []) }
    ensures room { IfOk result (λ turns. turn_limit ≤ vec_capacity turns) }
{
    Vec::with_capacity(alloc, TURN_LIMIT)
}

/// The fault of a store, told on.
fn told<D>(refused: (OpenFault, D)) -> (DeskFault, D)
    ensures fault { result.0 ≡ from_store refused.0 }
    ensures disk { result.1 ≡ refused.1 }
{
    let (fault, disk) = refused;
    (DeskFault::from(fault), disk)
}

/// The chains of these records, admitted in order, and a copy of them.
fn chains_of(alloc: Global, records: &[(u32, Vec<u8>)]) -> Result<(Chains, Chains), DeskFault>
    ensures ok { IfOk result (λ both. Opens (said_in records.now) (held_of both.0)) }
    ensures copy { IfOk result (λ both. held_of both.1 ≡ held_of both.0) }
    ensures err { IfErr result (RefusesRecords (said_in records.now)) }
{
    let chains = admit_records(alloc, records)?;
    match chains.copy() {
        Ok(copy) => Ok((chains, copy)),
        Err(_) => Err(DeskFault::Memory),
    }
}

impl<D: Disk> Desk<D> {
    ghost use Rattle.record_file.specs.Opening.{KeepsFile, IsSynced};
    ghost use Rattle.chains.specs.Folded.{IsReached};
    ghost use Rattle.desk.specs.DeskTurn.{IsDeskTurn};
    ghost use Rattle.desk.specs.Files.{MayStandFor, IsShort};
    ghost use Rattle.desk.specs.Lawful.{IsLawfulDesk, unstopped};
    ghost use Rattle.desk.specs.Records.{IsReadOff};
    ghost use Rattle.desk.specs.OfHistories.{AreTurnsOfHistories};
    ghost use Rattle.desk.specs.Openings.{RefusesFile, CountsDeskFault, LeavesFile, IsNotOfTheFile, IsReopened};

    /// Opens the record file on a disk, and admits its records in order. It takes the memory for all turns. A fault hands the
    /// disk back.
    pub fn open(alloc: Global, disk: D) -> Result<Desk<D>, (DeskFault, D)>
        ensures records { D.keeps disk → IfOk result (λ desk. Stands desk.found (D.view disk).seen) }
        // What admitting the records comes to.
        ensures opened { IfOk result (λ desk. Opens desk.found desk.held) }
        ensures fresh { IfOk result (λ desk. (desk.held ≡ desk.opening) × (desk.turns ≡ []) × (desk.held.stopped ≡ false)) }
        ensures refused { D.keeps disk → IfErr result (λ e. RefusesFile (D.view disk).seen e.0) }

        // What a crash at any moment of the call may leave.
        ensures any_moment { D.keeps disk → IfOk result (λ desk. IsSynced (KeepsFile (D.view disk).seen) (D.view disk) (D.view desk.disk)) }
        ensures any_moment_err { D.keeps disk → IfErr result (λ e. LeavesFile e.0 (D.view disk) (D.view e.1)) }

        ensures cause { MatchResult result (λ desk. D.failed desk.disk ≡ D.failed disk) (λ e. CountsDeskFault e.0 (D.failed disk) (D.failed e.1)) }
        ensures premise { MatchResult result (λ desk. D.keeps desk.disk ↔ D.keeps disk) (λ e. D.keeps e.1 ↔ D.keeps disk) }
    {
        let turns = match room(alloc) {
            Ok(turns) => turns,
            Err(_) => return Err((DeskFault::Memory, disk)),
        };
        let store = match Store::open(alloc, disk) {
            Ok(store) => store,
            Err(refused) => return Err(told(refused)),
        };
        match chains_of(alloc, store.records()) {
            Ok((chains, opening)) => Ok(Desk {
                chains,
                opening,
                store,
                turns,
            }),
            Err(fault) => Err((fault, store.close())),
        }
    }

    /// Tells a proof what holds of each desk.
    pub fn recall_lawful(&self)
        ensures lawful { IsLawfulDesk D.keeps D.view self.now }
        ensures reached { IsReached self.now.held }
        ensures opening { IsReached self.now.opening }
        // The reports of a lawful history, handed over in order, are accepted up to the first refusal; those of other epochs are set aside.
        ensures of_histories { AreTurnsOfHistories self.now.opening self.now.turns self.now.held }
    {
        self.chains.recall_lawful();
        self.opening.recall_lawful();
    }

    /// The accepted reports, as chains.
    pub fn chains(&self) -> &Chains
        ensures accepted { result.now.accepted ≡ self.now.held.accepted }
        ensures front { result.now.front ≡ self.now.held.front }
        ensures held { held_of result.now ≡ unstopped self.now.held }
    {
        &self.chains
    }

    /// The number of accepted lines.
    pub fn front(&self) -> u32
        ensures { result ≡ self.now.held.front }
    {
        self.chains.front()
    }

    /// The calls since the desk was opened, each with its receipt.
    pub fn turns(&self) -> &[Turn]
        ensures { result.now ≡ self.now.turns }
    {
        &self.turns
    }

    /// Whether a turn since the desk was opened was answered `FAIL before` or `FAIL unknown`.
    pub fn stopped(&self) -> bool
        ensures { result ≡ self.now.held.stopped }
    {
        self.store.stopped()
    }

    /// The chains of the accepted reports, once more.
    pub fn snapshot(&self) -> Result<Chains, AllocError>
        ensures accepted { IfOk result (λ chains. chains.accepted ≡ self.now.held.accepted) }
        ensures front { IfOk result (λ chains. chains.front ≡ self.now.held.front) }
        ensures held { IfOk result (λ chains. held_of chains ≡ unstopped self.now.held) }
    {
        self.chains.copy()
    }

    /// The chains as they were when the desk was opened, once more.
    pub fn opening(&self) -> Result<Chains, AllocError>
        ensures { IfOk result (λ chains. held_of chains ≡ self.now.opening) }
    {
        self.opening.copy()
    }

    /// The chains as they were when the desk was opened.
    pub fn opened_with(&self) -> &Chains
        ensures { held_of result.now ≡ self.now.opening }
    {
        &self.opening
    }

    /// The disk.
    pub fn close(self) -> D
        ensures disk { result ≡ self.disk }
        // What a crash leaves from now on.
        ensures left { D.keeps result → (c : List ℕ) → Leaves (D.view result) c → MayStandFor (records_of self) self.held.epoch self.turns c }
    {
        self.recall_lawful();
        let Desk {
            chains: _,
            opening: _,
            store,
            turns: _,
        } = self;
        store.close()
    }

    /// Closes the desk and opens its disk again: the list of turns begins anew.
    pub fn reopen(self) -> Result<Desk<D>, (DeskFault, D)>
        ensures records { D.keeps self.disk → IfOk result (λ desk. IsReopened self desk.found desk.held) }
        ensures fresh { IfOk result (λ desk. (desk.held ≡ desk.opening) × (desk.turns ≡ []) × (desk.held.stopped ≡ false)) }
        // A desk's own file is refused for nothing that it says.
        ensures refused { D.keeps self.disk → IfErr result (λ e. IsNotOfTheFile e.0) }
        ensures any_moment { D.keeps self.disk → IfOk result (λ desk. IsSynced (KeepsFile (D.view self.disk).seen) (D.view self.disk) (D.view desk.disk)) }
        ensures any_moment_err { D.keeps self.disk → IfErr result (λ e. LeavesFile e.0 (D.view self.disk) (D.view e.1)) }
        ensures cause { MatchResult result (λ desk. D.failed desk.disk ≡ D.failed self.disk) (λ e. CountsDeskFault e.0 (D.failed self.disk) (D.failed e.1)) }
        ensures premise { MatchResult result (λ desk. D.keeps desk.disk ↔ D.keeps self.disk) (λ e. D.keeps e.1 ↔ D.keeps self.disk) }
    {
        self.recall_lawful();
        let alloc = self.chains.alloc();
        match Desk::open(alloc, self.close()) {
            Ok(desk) => {
                desk.recall_lawful();
                Ok(desk)
            }
            Err(refused) => Err(refused),
        }
    }

    /// The desk with a new list of turns: what is held now is its opening, and the records of its turns are among those found. No call
    /// of the device is made, and the file is not read.
    ///
    /// `Device`: the desk is stopped. Its file may have one record more than the desk knows, which only `reopen` finds out. `Memory`: a
    /// growth was refused. Both hand the disk back.
    pub fn renewed(self) -> Result<Desk<D>, (DeskFault, D)>
        ensures renewed { IfOk result (λ desk. (desk.held ≡ self.held) × (desk.opening ≡ self.held) × (desk.found ≡ records_of self) × (desk.turns ≡ []) × (desk.disk ≡ self.disk)) }
        ensures running { IfOk result (λ desk. self.held.stopped ≡ false) }
        ensures disk { IfErr result (λ e. e.1 ≡ self.disk) }
        ensures why { IfErr result (λ e. ((e.0 ≡ DeskFault.Device) × (self.held.stopped ≡ true)) ⊎ ((e.0 ≡ DeskFault.Memory) × (self.held.stopped ≡ false))) }
    {
        self.recall_lawful();
        if self.stopped() {
            return Err((DeskFault::Device, self.close()));
        }
        let Ok(opening) = self.snapshot() else {
            return Err((DeskFault::Memory, self.close()));
        };
        let alloc = self.chains.alloc();
        let Desk {
            chains,
            opening: _,
            store,
            turns,
        } = self;
        match take_in(alloc, store, turns) {
            Ok((store, turns)) => Ok(Desk {
                chains,
                opening,
                store,
                turns,
            }),
            Err(disk) => Err((DeskFault::Memory, disk)),
        }
    }

    /// Makes the turn of a call.
    pub fn turn(&mut self, call: Call) -> Result<Receipt, TurnFault>
        requires { IsShort call }
        ensures turn { IsDeskTurn D.keeps D.view D.failed self.old call self.new result }
    {
        self.turn_by(call, None)
    }

    /// The same for a call and the line that it was read off. A report without a mark goes into the file as these bytes.
    pub fn turn_read(&mut self, line: &[u8], call: Call) -> Result<Receipt, TurnFault>
        requires short { IsShort call }
        requires read { IsReadOff line.now call }
        ensures turn { IsDeskTurn D.keeps D.view D.failed self.old call self.new result }
    {
        self.turn_by(call, Some(line))
    }

    /// The same with the line, where there is one.
    fn turn_by(&mut self, call: Call, line: Option<&[u8]>) -> Result<Receipt, TurnFault>
        requires short { IsShort call }
        requires read { IfSome line (λ l. IsReadOff l.now call) }
        ensures turn { IsDeskTurn D.keeps D.view D.failed self.old call self.new result }
    {
        if self.turns.len() >= TURN_LIMIT {
            return Err(TurnFault::Worn);
        }
        self.chains.recall_lawful();
        let (given, kept) = answered(&mut self.chains, &mut self.store, &call, line)?.into_parts();
        let turn = self.turns.len() as u32 + 1;
        self.turns.push_reserved(Turn {
            call,
            receipt: Receipt { turn, reply: kept },
        });
        Ok(Receipt { turn, reply: given })
    }
}
