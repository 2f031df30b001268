//! One coordinator after the other, over the same clients.

ghost use Rattle.std.specs.Prelude.{◌≡◌, ◌<◌, ◌≤◌, ℕ, List, [], IfOk, IfErr};
ghost use Rattle.std.specs.Thread.{IsSend, IsSync};
ghost use Rattle.coordinator.specs.Closing.{EndsWith, IsRemainder};
ghost use Rattle.coordinator.specs.Passes.{ledger_parts};
ghost use Rattle.coordinator.specs.Passes.{PassState};
ghost use Rattle.coordinator.specs.declared.fault.CloseFault.{CloseFault};
ghost use Rattle.recline.specs.Lasting.{ArePassesOfGuests, IsGeneration, IsUnsettled};
ghost use Rattle.recline.specs.Serving.{stopped_by};

use crate::crew::Crew;
use crate::door::{Bell, Door, MOST_CLIENTS};
use crate::farewell::take_leave;
use crate::host::ServiceRuntime;
use crate::room::{Closed, Halt, Lodging, Room};
use crate::serving::{Stop, stop_of};
use crate::stir::Stir;
use crate::watching::Watched;
use client_link::{Link, ServiceLink};
use coordinator::{Coordinator, Ended, Pass, Refused, Remainder};
use crossbeam_channel::bounded;
use desk::Desk;
use line_disk::Disk;
use session::Answered;
use std::alloc::{AllocError, Global};
use std::collections::VecDeque;
use std::marker::Brand;
use std::sync::Mutex;
use std::sync::atomic::AtomicU64;
use std::sync::ledger::{Blank, Ledger};
use std::thread::{for_each_mut, scope, scope_env};
use std::time::Instant;

/// What stays from one coordinator to the next.
#[derive(Drop)]
pub(crate) struct House<D: Disk, K: ServiceLink + Drop, W: Link + Drop> {
    /// The clients, in the order of their places.
    pub(crate) lodgings: Vec<Lodging<D, K>>,
    /// The places of those that have to be served, in the order in which they wait for that.
    pub(crate) due: VecDeque<usize>,
    /// How many seconds have passed.
    pub(crate) seconds: u64,
    /// When that was counted last.
    pub(crate) counted: Option<Instant>,
    /// Where its operator gets notices, unless the thread for that was lost.
    pub(crate) watched: Option<Watched<W>>,
}

impl<D: Disk, K: ServiceLink + Drop, W: Link + Drop> House<D, K, W> {
    /// A house without clients.
    pub(crate) fn new(alloc: Global, warnings: W) -> Result<House<D, K, W>, AllocError> {
        let mut lodgings = Vec::with_capacity(alloc, MOST_CLIENTS)?;
        for _ in 0..MOST_CLIENTS {
            lodgings.push(Lodging::Free)?;
        }
        Ok(House {
            lodgings,
            due: VecDeque::with_capacity(alloc, MOST_CLIENTS)?,
            seconds: 0,
            counted: None,
            watched: Some(Watched::new(warnings)),
        })
    }
}

/// What a service that lasts goes by.
#[derive(Clone, Copy)]
pub(crate) struct Rules {
    pub(crate) workers: usize,
    /// So many seconds a client may rest, if there is a limit.
    pub(crate) idle: Option<u64>,
}

/// What is left of a coordinator whose turns are those of the passes of the clients.
#[derive(Drop)]
pub(crate) struct Settled<D: Disk, K: ServiceLink + Drop, W: Link + Drop> {
    pub(crate) house: House<D, K, W>,
    /// Why its workers ended.
    pub(crate) halt: Halt,
    /// The desk at its end.
    pub(crate) desk: Desk<D>,
}

/// What is left if they are not, or memory was missing.
#[derive(Drop)]
pub(crate) struct Unsettled<D: Disk> {
    pub(crate) stop: Stop,
    pub(crate) disk: D,
}

/// How many passes a coordinator hands out.
const PASSES: usize = 8_192;

/// Adds these passes to the others. If memory is missing, some are left out.
fn add_passes<L: Ledger, D: Disk, K: ServiceLink + Drop>(
    passes: &mut Vec<Pass<L>>,
    answered: Vec<Answered<L, D, K>>,
) -> Result<(), AllocError>
    requires { ArePassesOfGuests D.keeps D.view K.told passes.old.items }
    ensures { ArePassesOfGuests D.keeps D.view K.told passes.new.items }
{
    for one in answered {
        let Answered { pass, kinds: _ } = one;
        passes.push(pass)?;
    }
    Ok(())
}

/// What is left if no client was served over a desk.
pub(crate) fn unserved<D: Disk>(stop: Stop, desk: Desk<D>) -> Unsettled<D>
    ensures { (result.disk ≡ desk.disk) × (result.stop ≡ stop) }
{
    Unsettled {
        stop,
        disk: desk.close(),
    }
}

/// What is left if the passes are not those of all turns.
fn broken<D: Disk>(remainder: Remainder<D>) -> Unsettled<D>
    ensures { (result.disk ≡ remainder.ended.disk) × (result.stop ≡ stopped_by remainder.fault) }
{
    let Remainder { fault, ended } = remainder;
    let Ended { disk, .. } = ended;
    Unsettled {
        stop: stop_of(&fault),
        disk,
    }
}

/// Has the workers serve the clients in the room, until they end. One that cannot start is left out.
fn work_together<
    L: Ledger + Send + Sync,
    D: Disk + Send + Drop,
    K: ServiceLink + Send + Drop,
    T: Door<K> + Send,
    B: Bell + Sync,
    R: ServiceRuntime,
>(
    rt: &R,
    alloc: Global,
    coordinator: &Coordinator<L, D>,
    room: &Mutex<Room<L, D, K>>,
    door: &Mutex<T>,
    bell: &B,
    rules: Rules,
    closed: &AtomicU64,
) {
    let stir = Stir::new(room.lock(rt).due());
    let stir = &stir;
    let Rules { workers, idle } = rules;
    let Ok(mut hands) = Vec::from_elem(alloc, 0u8, workers) else {
        room.lock(rt).halt(Halt::Memory);
        return;
    };
    for_each_mut(
        rt,
        hands.as_mut_slice(),
        workers.max(1),
        &|_, _hand| {
            let crew = Crew {
                rt,
                alloc,
                coordinator,
                room,
                stir,
                door,
                bell,
                workers,
                idle,
                closed,
            };
            crew.work()
        },
    );
}

/// The same, while a thread prints notices for the operator, from this second on.
fn work_watched<
    L: Ledger + Send + Sync,
    D: Disk + Send + Drop,
    K: ServiceLink + Send + Drop,
    T: Door<K> + Send,
    B: Bell + Sync,
    W: Link + Send + Drop,
    R: ServiceRuntime,
>(
    rt: &R,
    alloc: Global,
    coordinator: &Coordinator<L, D>,
    room: &Mutex<Room<L, D, K>>,
    door: &Mutex<T>,
    bell: &B,
    rules: Rules,
    closed: &AtomicU64,
    watched: Option<Watched<W>>,
    seconds: u64,
) -> Option<Watched<W>> {
    let (Some(watched), Ok((goes_on, going))) = (watched, bounded::<(), _>(alloc, 1)) else {
        work_together(rt, alloc, coordinator, room, door, bell, rules, closed);
        return None;
    };
    scope(
        scope_env(),
        rt,
        move |scope| -> Option<Watched<W>>
            requires { IsSync R.row × IsSend L.row × IsSync L.row × IsSend R.row × IsSend D.row × IsSend K.row × IsSend T.row × IsSync B.row × IsSend W.row }
        {
            let watcher = scope.spawn(
                move || -> Watched<W>
                    requires { IsSync R.row × IsSend R.row × IsSend L.row × IsSync L.row × IsSend D.row × IsSend W.row }
                {
                    let mut watched = watched;
                    watched.watch(rt, &going, coordinator, closed, seconds);
                    watched
                },
            );
            work_together(rt, alloc, coordinator, room, door, bell, rules, closed);
            drop(goes_on);
            match watcher {
                Ok(watcher) => Some(watcher.join(rt)),
                Err(_) => None,
            }
        },
    )
}

/// Serves the clients in a room over a coordinator, until another one has to come or the service ends, and ends it with their passes.
fn serve_in_room<
    L: Ledger + Send + Sync,
    D: Disk + Send + Drop,
    K: ServiceLink + Send + Drop,
    T: Door<K> + Send,
    B: Bell + Sync,
    W: Link + Send + Drop,
    R: ServiceRuntime,
>(
    rt: &R,
    alloc: Global,
    coordinator: Coordinator<L, D>,
    mut passes: Vec<Pass<L>>,
    room: Room<L, D, K>,
    door: &Mutex<T>,
    bell: &B,
    rules: Rules,
    closed: &AtomicU64,
    watched: Option<Watched<W>>,
    seconds: u64,
) -> Result<Settled<D, K, W>, Unsettled<D>>
    requires { passes.items ≡ [] }
    ensures ok { IfOk result (λ s. (shown : List PassState) × (EndsWith D.keeps D.view coordinator shown s.desk × ArePassesOfGuests D.keeps D.view K.told shown)) }
    ensures err { IfErr result (λ u. (fault : CloseFault) × ((turns : ℕ) × ((front : ℕ) × ((shown : List PassState) × (IsRemainder D.keeps D.view coordinator shown fault turns front u.disk × (ArePassesOfGuests D.keeps D.view K.told shown × (u.stop ≡ stopped_by fault))))))) }
{
    let room = Mutex::new(room);
    let watched = work_watched(
        rt,
        alloc,
        &coordinator,
        &room,
        door,
        bell,
        rules,
        closed,
        watched,
        seconds,
    );
    let Closed {
        lodgings,
        due,
        answered,
        halt,
        seconds,
        counted,
    } = room.into_inner().close();
    // If some are left out, the coordinator says that they are missing.
    let _added = add_passes(&mut passes, answered);
    match coordinator.finish_with_desk(passes) {
        Ok(desk) => {
            let house = House {
                lodgings,
                due,
                seconds,
                counted,
                watched,
            };
            Ok(Settled { house, halt, desk })
        }
        Err(remainder) => {
            take_leave(rt, lodgings);
            Err(broken(remainder))
        }
    }
}

/// One coordinator's time over the clients of a house, whose ledger `L` names. None of its passes outlives it.
fn generation<
    L: Ledger + Send + Sync,
    D: Disk + Send + Drop,
    K: ServiceLink + Send + Drop,
    T: Door<K> + Send,
    B: Bell + Sync,
    W: Link + Send + Drop,
    R: ServiceRuntime,
>(
    rt: &R,
    alloc: Global,
    blank: Blank,
    desk: Desk<D>,
    house: House<D, K, W>,
    door: &Mutex<T>,
    bell: &B,
    rules: Rules,
    closed: &AtomicU64,
) -> Result<Settled<D, K, W>, Unsettled<D>>
    requires name { blank.name ≡ L.name }
    requires parts { (blank.parts ≡ L.parts) × (blank.parts ≡ ledger_parts) }
    requires fresh { desk.turns ≡ [] }
    requires workers { (0 < rules.workers) × (rules.workers ≤ 64) }
    ensures ok { IfOk result (λ s. IsGeneration D.keeps D.view K.told desk s.desk) }
    ensures err { IfErr result (λ u. IsUnsettled D.keeps D.view K.told desk u.disk u.stop) }
{
    let House {
        lodgings,
        due,
        seconds,
        counted,
        watched,
    } = house;
    let (Ok(passes), Ok(mut room)) = (
        Vec::with_capacity(alloc, PASSES),
        Room::new(alloc, due, seconds, counted),
    ) else {
        take_leave(rt, lodgings);
        return Err(unserved(Stop::Memory, desk));
    };
    room.take_in_all(lodgings);
    match Coordinator::<L, D>::with_workers(alloc, blank, desk, rules.workers) {
        Ok(coordinator) => serve_in_room(
            rt,
            alloc,
            coordinator,
            passes,
            room,
            door,
            bell,
            rules,
            closed,
            watched,
            seconds,
        ),
        Err(Refused { blank: _, desk }) => {
            take_leave(rt, room.close().lodgings);
            Err(unserved(Stop::Memory, desk))
        }
    }
}

/// The same with a new ledger. The call by `Brand` stands in a function of its own, so that each call has a ledger of its own.
pub(crate) fn next_generation<
    D: Disk + Send + Drop,
    K: ServiceLink + Send + Drop,
    T: Door<K> + Send,
    B: Bell + Sync,
    W: Link + Send + Drop,
    R: ServiceRuntime,
>(
    rt: &R,
    alloc: Global,
    desk: Desk<D>,
    house: House<D, K, W>,
    door: &Mutex<T>,
    bell: &B,
    rules: Rules,
    closed: &AtomicU64,
) -> Result<Settled<D, K, W>, Unsettled<D>>
    requires fresh { desk.turns ≡ [] }
    requires workers { (0 < rules.workers) × (rules.workers ≤ 64) }
    ensures ok { IfOk result (λ s. IsGeneration D.keeps D.view K.told desk s.desk) }
    ensures err { IfErr result (λ u. IsUnsettled D.keeps D.view K.told desk u.disk u.stop) }
{
    let blank = Blank::new(8193);
    generation::<Brand, _, _, _, _, _, _>(rt, alloc, blank, desk, house, door, bell, rules, closed)
}
