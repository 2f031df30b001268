//! What the workers of a service share: where each client is.

use crate::door::{Happened, MOST_CLIENTS};
use client_link::{Leaving, ServiceLink};
use coordinator::Entry;
use line_disk::Disk;
use report_line::Reply;
use session::{Answered, Guest, Rest, Seat};
use std::alloc::{AllocError, Global};
use std::collections::VecDeque;
use std::mem;
use std::sync::ledger::Ledger;
use std::time::{Clock, Instant};

/// So many turns a coordinator makes before the next one takes its place: 65,536 less those that 64 workers may have under way.
const MOST_TURNS: u64 = 61_440;

/// So many passes it hands out: 8,192 less one for each worker.
const MOST_PASSES: u64 = 8_128;

/// So many bytes are kept for its check: of lines that were shown, and of what was asked.
const MOST_KEPT: u64 = 64 << 20;

/// So long its lines were computed, in microseconds of all threads that computed them.
const MOST_COMPUTING: u64 = 200_000;

/// So many bytes of replies wait for clients that do not take them. A client more of this kind is let go.
const MOST_WAITING: u64 = 64 << 20;

/// As many clients as passes were taken are gone at most, and those that are there may have one each.
const MOST_ANSWERED: usize = 8_192;

/// So many seconds a client that is let go may take to go.
const MOST_LEAVING: u64 = 1;

/// Why the workers of a coordinator end.
#[derive(Clone, Copy)]
pub(crate) enum Halt {
    /// The next coordinator takes the place of this one.
    Renewal,
    /// The service is to end.
    Over,
    /// The file failed, so that no later report is recorded, or the door did.
    Device,
    /// Memory was missing.
    Memory,
}

/// What weighs more is why the workers end, if there are several reasons.
fn weight_of(halt: Halt) -> u8 {
    match halt {
        Halt::Renewal => 1,
        Halt::Over => 2,
        Halt::Memory => 3,
        Halt::Device => 4,
    }
}

/// What one visit at a client added up to.
#[derive(Clone, Copy)]
pub(crate) struct Tally {
    /// How many turns were made.
    turns: u64,
    /// How many passes were taken.
    passes: u64,
    /// How many bytes are kept of them.
    kept: u64,
    /// How many bytes the last reply has, if it is a line.
    last: u64,
    /// How many microseconds lines were computed.
    computing: u64,
    /// Whether the file failed.
    failed: bool,
}

impl Tally {
    /// Nothing.
    pub(crate) fn new() -> Tally {
        Tally {
            turns: 0,
            passes: 0,
            kept: 0,
            last: 0,
            computing: 0,
            failed: false,
        }
    }

    /// One turn more, which has this reply.
    fn count(&mut self, shown: &Reply) {
        self.turns = self.turns.saturating_add(1);
        self.last = 0;
        match shown {
            Reply::Line(text) => {
                self.last = text.as_bytes().len() as u64;
                self.kept = self.kept.saturating_add(self.last);
            }
            Reply::Fail(_) => self.failed = true,
            _ => {}
        }
    }

    /// The turns of these entries of a pass, without the first so many of them. The lines that were asked have so many bytes: what is kept of a
    /// call stands in the list of turns and in the pass.
    pub(crate) fn of(earlier: usize, entries: &[Entry], asked: usize) -> Tally {
        let mut tally = Tally::new();
        tally.kept = (asked as u64).saturating_mul(2);
        let (_, later) = entries.split_at(earlier.min(entries.len()));
        for entry in later {
            tally.count(entry.shown());
        }
        tally
    }

    /// How many turns were made.
    pub(crate) fn turns(&self) -> u64 {
        self.turns
    }

    /// Whether a line was shown.
    pub(crate) fn has_line(&self) -> bool {
        self.last > 0
    }

    /// The same with a pass that was taken.
    pub(crate) fn with_pass(self) -> Tally {
        Tally { passes: 1, ..self }
    }

    /// The same with so many microseconds in which lines were computed.
    pub(crate) fn with_computing(self, computing: u64) -> Tally {
        Tally { computing, ..self }
    }

    /// Adds another one.
    fn add(&mut self, more: Tally) {
        self.turns = self.turns.saturating_add(more.turns);
        self.passes = self.passes.saturating_add(more.passes);
        self.kept = self.kept.saturating_add(more.kept);
        self.computing = self.computing.saturating_add(more.computing);
        self.failed |= more.failed;
    }

    /// Whether another coordinator has to come.
    fn is_full(&self) -> bool {
        self.turns >= MOST_TURNS
            || self.passes >= MOST_PASSES
            || self.kept >= MOST_KEPT
            || self.computing >= MOST_COMPUTING
    }
}

/// A client between two coordinators.
#[derive(Drop)]
pub(crate) struct Lodger<D: Disk, K: ServiceLink + Drop> {
    pub(crate) guest: Guest<D, K>,
    /// Since when it was not answered.
    pub(crate) since: u64,
    /// How many bytes wait for it.
    waits: u64,
}

/// A client between two coordinators, if one has this place.
#[derive(Drop)]
pub(crate) enum Lodging<D: Disk, K: ServiceLink + Drop> {
    /// Nobody.
    Free,
    /// A client.
    Guest(Lodger<D, K>),
    /// One that was let go, and since when.
    Leaving(Leaving, u64),
}

/// Who has a place.
#[derive(Drop)]
enum Place<L: Ledger, D: Disk, K: ServiceLink + Drop> {
    /// Nobody.
    Free,
    /// A client rests here.
    Here(Seat<L, D, K>),
    /// A client that a worker has, or that is being taken.
    Away,
    /// One that was let go, and since when.
    Leaving(Leaving, u64),
}

/// A place, and what is known of its client.
#[derive(Drop)]
struct Spot<L: Ledger, D: Disk, K: ServiceLink + Drop> {
    place: Place<L, D, K>,
    /// Whether something happened to it while a worker had it.
    has_rung: bool,
    /// Since when it was not answered.
    since: u64,
    /// Whether it stands among those that have to be served.
    is_due: bool,
    /// How many bytes wait for it at most.
    waits: u64,
}

/// A client on its way to a worker, and its place.
#[derive(Drop)]
pub(crate) struct Visit<L: Ledger, D: Disk, K: ServiceLink + Drop> {
    pub(crate) place: usize,
    pub(crate) seat: Seat<L, D, K>,
    /// How many others have to be served.
    pub(crate) due: usize,
}

/// Lets a client go: nothing more is sent to it. What was sent before that is read away, since a poller need not tell of it again. Answers what is
/// left of it, if more may come.
pub(crate) fn let_go<D: Disk, K: ServiceLink + Drop>(
    guest: Guest<D, K>,
    buf: &mut [u8; 8192],
) -> Option<Leaving> {
    let mut leaving = guest.let_go()?;
    if leaving.read_away(buf) {
        Some(leaving)
    } else {
        None
    }
}

/// Whether a session that rests at this can go on after what happened.
fn is_awaited(rest: Rest, happened: Happened) -> bool {
    match rest {
        Rest::Read | Rest::Receive => happened.reads,
        Rest::Write => happened.writes,
        Rest::Due | Rest::Renewal | Rest::Over(_) => false,
    }
}

/// Whether a session that rests at this goes on by itself.
fn goes_on(rest: Rest) -> bool {
    match rest {
        Rest::Receive | Rest::Due | Rest::Renewal => true,
        Rest::Read | Rest::Write | Rest::Over(_) => false,
    }
}

/// Where each client is, and what the workers have to do.
#[derive(Drop)]
pub(crate) struct Room<L: Ledger, D: Disk, K: ServiceLink + Drop> {
    spots: Vec<Spot<L, D, K>>,
    /// The places that nobody has.
    free: Vec<usize>,
    /// The places of clients that have to be served.
    due: VecDeque<usize>,
    /// What clients that are gone were answered.
    answered: Vec<Answered<L, D, K>>,
    tally: Tally,
    /// How many bytes wait for clients that do not take them.
    waiting: u64,
    halt: Option<Halt>,
    /// How many seconds have passed, and when that was counted last.
    seconds: u64,
    counted: Option<Instant>,
    /// Room for the clients at the end.
    lodgings: Vec<Lodging<D, K>>,
}

/// What is left of a room after its last worker.
#[derive(Drop)]
pub(crate) struct Closed<L: Ledger, D: Disk, K: ServiceLink + Drop> {
    /// The clients, in the order of their places.
    pub(crate) lodgings: Vec<Lodging<D, K>>,
    /// The places of those that have to be served, in the order in which they wait for that.
    pub(crate) due: VecDeque<usize>,
    /// What was answered by this coordinator.
    pub(crate) answered: Vec<Answered<L, D, K>>,
    /// Why the workers ended.
    pub(crate) halt: Halt,
    /// How many seconds have passed by now, and when that was counted last.
    pub(crate) seconds: u64,
    pub(crate) counted: Option<Instant>,
}

impl<L: Ledger, D: Disk, K: ServiceLink + Drop> Room<L, D, K> {
    /// A room without clients, in which those of these places have to be served, after so many seconds.
    pub(crate) fn new(
        alloc: Global,
        due: VecDeque<usize>,
        seconds: u64,
        counted: Option<Instant>,
    ) -> Result<Room<L, D, K>, AllocError> {
        Ok(Room {
            spots: Vec::with_capacity(alloc, MOST_CLIENTS)?,
            free: Vec::with_capacity(alloc, MOST_CLIENTS)?,
            due,
            answered: Vec::with_capacity(alloc, MOST_ANSWERED)?,
            tally: Tally::new(),
            waiting: 0,
            halt: None,
            seconds,
            counted,
            lodgings: Vec::with_capacity(alloc, MOST_CLIENTS)?,
        })
    }

    /// Takes in these clients, in the order of their places.
    pub(crate) fn take_in_all(&mut self, lodgings: Vec<Lodging<D, K>>) {
        for lodging in lodgings {
            if self.take_in(lodging).is_err() {
                self.halt(Halt::Memory);
            }
        }
        for place in self.due.iter() {
            if let Some(spot) = self.spots.get_mut(*place) {
                spot.is_due = true;
            }
        }
    }

    /// One place more, which has this client. There is room for it.
    fn take_in(&mut self, lodging: Lodging<D, K>) -> Result<(), AllocError> {
        let mut spot = Spot {
            place: Place::Free,
            has_rung: false,
            since: self.seconds,
            is_due: false,
            waits: 0,
        };
        match lodging {
            Lodging::Free => self.free.push(self.spots.len())?,
            Lodging::Guest(lodger) => {
                let Lodger {
                    guest,
                    since,
                    waits,
                } = lodger;
                spot.place = Place::Here(guest.sit());
                spot.since = since;
                spot.waits = waits;
                self.waiting = self.waiting.saturating_add(waits);
            }
            Lodging::Leaving(leaving, since) => spot.place = Place::Leaving(leaving, since),
        }
        self.spots.push(spot)?;
        Ok(())
    }

    /// The client that has to be served next, if there is one and the workers do not end. It is away from then on.
    pub(crate) fn next_visit(&mut self) -> Option<Visit<L, D, K>> {
        if self.halts() {
            return None;
        }
        for _ in 0..MOST_CLIENTS {
            let place = self.due.pop_front()?;
            if let Some(spot) = self.spots.get_mut(place) {
                spot.is_due = false;
            }
            if let Some(seat) = self.take_seat(place) {
                return Some(Visit {
                    place,
                    seat,
                    due: self.due.len(),
                });
            }
        }
        None
    }

    /// The client of this place, if it rests there. It is away from then on.
    fn take_seat(&mut self, place: usize) -> Option<Seat<L, D, K>> {
        let spot = self.spots.get_mut(place)?;
        match mem::replace(&mut spot.place, Place::Away) {
            Place::Here(seat) => {
                spot.has_rung = false;
                self.waiting = self.waiting.saturating_sub(spot.waits);
                Some(seat)
            }
            other => {
                spot.place = other;
                None
            }
        }
    }

    /// How many clients have to be served.
    pub(crate) fn due(&self) -> usize {
        self.due.len()
    }

    /// The workers end for this, if they do not end for something that weighs more.
    pub(crate) fn halt(&mut self, halt: Halt) {
        let weight = match self.halt {
            Some(before) => weight_of(before),
            None => 0,
        };
        if weight_of(halt) > weight {
            self.halt = Some(halt);
        }
    }

    /// Whether the workers end.
    pub(crate) fn halts(&self) -> bool {
        self.halt.is_some()
    }

    /// A place that nobody has, for a client that is being taken.
    pub(crate) fn reserve(&mut self) -> Option<usize> {
        let place = self.free.pop()?;
        if let Some(spot) = self.spots.get_mut(place) {
            spot.place = Place::Away;
        }
        Some(place)
    }

    /// Nobody was taken for this place.
    pub(crate) fn release(&mut self, place: usize) {
        if let Some(spot) = self.spots.get_mut(place) {
            spot.place = Place::Free;
        }
        if self.free.push(place).is_err() {
            self.halt(Halt::Memory);
        }
    }

    /// A client was taken for this place. It is served at once, since it may have sent something by now.
    pub(crate) fn welcome(&mut self, place: usize, guest: Guest<D, K>) {
        let seconds = self.seconds;
        if let Some(spot) = self.spots.get_mut(place) {
            spot.place = Place::Here(guest.sit());
            spot.has_rung = false;
            spot.since = seconds;
            spot.waits = 0;
        }
        self.make_due(place);
    }

    /// The client of this place has to be served.
    fn make_due(&mut self, place: usize) {
        let Some(spot) = self.spots.get_mut(place) else {
            return;
        };
        if spot.is_due {
            return;
        }
        spot.is_due = true;
        if self.due.push_back(place).is_err() {
            self.halt(Halt::Memory);
        }
    }

    /// Something happened to a client, or may have. What one sends that was let go is read away.
    pub(crate) fn ring(&mut self, happened: Happened, buf: &mut [u8; 8192]) {
        let Some(spot) = self.spots.get_mut(happened.place) else {
            return;
        };
        match &mut spot.place {
            Place::Free => {}
            Place::Away => spot.has_rung = true,
            Place::Here(seat) => if is_awaited(seat.rest(), happened) {
                self.make_due(happened.place);
            },
            Place::Leaving(leaving, _) => if !leaving.read_away(buf) {
                self.release(happened.place);
            },
        }
    }

    /// A worker did so much for a client.
    pub(crate) fn count(&mut self, tally: Tally) {
        self.tally.add(tally);
        if tally.failed {
            self.halt(Halt::Device);
        } else if self.tally.is_full() {
            self.halt(Halt::Renewal);
        }
    }

    /// The worker gives the client back, which goes on, unless it has rested for too long, or too much waits for it.
    pub(crate) fn put_back(
        &mut self,
        place: usize,
        seat: Seat<L, D, K>,
        tally: Tally,
        idle: Option<u64>,
        buf: &mut [u8; 8192],
    ) {
        let rest = seat.rest();
        let is_late = tally.turns == 0 && self.has_rested(place, idle);
        let must_go = match rest {
            Rest::Read => is_late,
            Rest::Write => is_late || self.is_laden(place, tally),
            Rest::Receive | Rest::Due | Rest::Renewal | Rest::Over(_) => false,
        };
        if must_go {
            self.part(place, seat, buf);
            return;
        }
        if let Rest::Renewal = rest {
            self.halt(Halt::Renewal);
        }
        if self.sit_down(place, seat, tally) || goes_on(rest) {
            self.make_due(place);
        }
    }

    /// What waits for the client of this place is counted, to which the last reply of this visit was not handed on as a whole. Answers whether
    /// that is too much, with what waits for others.
    fn is_laden(&mut self, place: usize, tally: Tally) -> bool {
        let Some(spot) = self.spots.get_mut(place) else {
            return false;
        };
        if tally.turns > 0 {
            spot.waits = tally.last;
        }
        spot.waits > MOST_WAITING.saturating_sub(self.waiting)
    }

    /// A client rests at its place. Answers whether something happened to it while it was away.
    fn sit_down(&mut self, place: usize, seat: Seat<L, D, K>, tally: Tally) -> bool {
        let seconds = self.seconds;
        let Some(spot) = self.spots.get_mut(place) else {
            return false;
        };
        match seat.rest() {
            Rest::Write => self.waiting = self.waiting.saturating_add(spot.waits),
            _ => spot.waits = 0,
        }
        spot.place = Place::Here(seat);
        if tally.turns > 0 {
            spot.since = seconds;
        }
        spot.has_rung
    }

    /// A client is let go: nothing more is sent to it, and what it still sends is read away for a while.
    fn part(&mut self, place: usize, seat: Seat<L, D, K>, buf: &mut [u8; 8192]) {
        let (guest, answered) = seat.stand();
        let leaving = let_go(guest, buf);
        self.see_off(place, answered, leaving);
    }

    /// The client of this place was let go, and was answered so much.
    pub(crate) fn see_off(
        &mut self,
        place: usize,
        answered: Option<Answered<L, D, K>>,
        leaving: Option<Leaving>,
    ) {
        if let Some(answered) = answered
            && self.answered.push(answered).is_err()
        {
            self.halt(Halt::Memory);
        }
        let seconds = self.seconds;
        match leaving {
            Some(leaving) => if let Some(spot) = self.spots.get_mut(place) {
                spot.place = Place::Leaving(leaving, seconds);
            },
            None => self.release(place),
        }
    }

    /// Counts the seconds. In each of them who went on to leave for too long is closed, and who rests for more seconds than a client may is let
    /// go. What lies between two looks counts as one second, since nobody was heard of in it.
    pub(crate) fn pass_time<R: Clock>(&mut self, rt: &R, idle: Option<u64>, buf: &mut [u8; 8192]) {
        let has_passed = match &self.counted {
            Some(counted) => match counted.elapsed(rt) {
                Ok(time) => time.as_secs() > 0,
                Err(_) => false,
            },
            None => true,
        };
        if has_passed {
            self.seconds = self.seconds.saturating_add(1);
            self.counted = Instant::now(rt).ok();
            self.let_time_pass(idle, buf);
        }
    }

    /// Who went on to leave for too long is closed, and who rests for more seconds than a client may is let go.
    fn let_time_pass(&mut self, idle: Option<u64>, buf: &mut [u8; 8192]) {
        for place in 0..self.spots.len() {
            if self.has_left(place) {
                self.release(place);
            } else if self.is_idle(place, idle)
                && let Some(seat) = self.take_seat(place)
            {
                self.part(place, seat, buf);
            }
        }
    }

    /// Whether the client of this place was let go long ago.
    fn has_left(&self, place: usize) -> bool {
        match self.spots.get(place) {
            Some(spot) => match &spot.place {
                Place::Leaving(_, since) => { self.seconds > since.saturating_add(MOST_LEAVING) }
                Place::Free | Place::Here(_) | Place::Away => false,
            },
            None => false,
        }
    }

    /// Whether the client of this place was not answered for more seconds than a client may rest.
    fn has_rested(&self, place: usize, idle: Option<u64>) -> bool {
        match (self.spots.get(place), idle) {
            (Some(spot), Some(idle)) => self.seconds > spot.since.saturating_add(idle),
            _ => false,
        }
    }

    /// Whether the client of this place has rested for too long, and does not wait to be served.
    fn is_idle(&self, place: usize, idle: Option<u64>) -> bool {
        let Some(spot) = self.spots.get(place) else {
            return false;
        };
        match &spot.place {
            Place::Here(_) => !spot.is_due && self.has_rested(place, idle),
            Place::Free | Place::Away | Place::Leaving(_, _) => false,
        }
    }

    /// After the last worker: the clients, in the order of their places, what was answered by this coordinator, why the workers ended, and how
    /// many seconds have passed by now.
    pub(crate) fn close(self) -> Closed<L, D, K> {
        let Room {
            spots,
            free: _,
            due,
            answered,
            tally: _,
            waiting: _,
            halt,
            seconds,
            counted,
            lodgings,
        } = self;
        let mut closed = Closed {
            lodgings,
            due,
            answered,
            halt: match halt {
                Some(halt) => halt,
                None => Halt::Renewal,
            },
            seconds,
            counted,
        };
        for spot in spots {
            closed.leave_spot(spot);
        }
        closed
    }
}

impl<L: Ledger, D: Disk, K: ServiceLink + Drop> Closed<L, D, K> {
    /// One place more.
    fn leave_spot(&mut self, spot: Spot<L, D, K>) {
        let Spot {
            place,
            has_rung: _,
            since,
            is_due: _,
            waits,
        } = spot;
        let lodging = match place {
            Place::Free | Place::Away => Lodging::Free,
            Place::Leaving(leaving, left_since) => Lodging::Leaving(leaving, left_since),
            Place::Here(seat) => {
                let (guest, answered) = seat.stand();
                self.keep(answered);
                Lodging::Guest(Lodger {
                    guest,
                    since,
                    waits,
                })
            }
        };
        // There is room for all.
        if self.lodgings.push(lodging).is_err() {
            self.halt = Halt::Memory;
        }
    }

    /// What one client was answered.
    fn keep(&mut self, answered: Option<Answered<L, D, K>>) {
        if let Some(answered) = answered
            && self.answered.push(answered).is_err()
        {
            self.halt = Halt::Memory;
        }
    }
}
