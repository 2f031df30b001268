//! The workers of a service: equal ones, of which one waits at the door.

use crate::door::{Bell, Door, Happened, MOST_CLIENTS, is_for_now, is_of_one_client};
use crate::room::{Halt, Room, Tally, Visit, let_go};
use crate::stir::{Lead, Stir, Task, micros_since};
use client_link::ServiceLink;
use coordinator::{Coordinator, threads_for};
use line_disk::Disk;
use session::{Rest, Seat};
use std::alloc::Global;
use std::io;
use std::sync::atomic::{AtomicU64, Ordering};
use std::sync::ledger::Ledger;
use std::sync::{Mutex, Wait};
use std::thread::Threads;
use std::time::{Clock, Duration, Instant};

/// So many milliseconds one waits at the door at most.
const MOST_WAITING: u64 = 1_000;

/// If no worker serves a client, the leader looks at the door without waiting first, for so many microseconds and so often at most. To be woken takes
/// as long as a short turn.
const EAGER_MICROS: u64 = 40;

const EAGER_LOOKS: u32 = 256;

/// If nothing happened in that time, it waits at once for the next so many times.
const PATIENT_WAITS: u32 = 64;

/// So many clients are taken at one look at the door.
const MOST_TAKEN: usize = 64;

/// So many steps one visit has at most: more than lines are answered in it.
const MOST_STEPS: u32 = 16;

/// What a worker keeps from one look at the door to the next.
#[derive(Drop)]
struct Outlook {
    /// What happened to clients.
    happened: Vec<Happened>,
    /// So many times it still waits at once.
    waits: u32,
}

/// What the workers of a coordinator share.
#[derive(Drop)]
pub(crate) struct Crew<'a, L: Ledger, D: Disk, K: ServiceLink + Drop, T, B, R> {
    pub(crate) rt: &'a R,
    pub(crate) alloc: Global,
    pub(crate) coordinator: &'a Coordinator<L, D>,
    pub(crate) room: &'a Mutex<Room<L, D, K>>,
    pub(crate) stir: &'a Stir,
    pub(crate) door: &'a Mutex<T>,
    pub(crate) bell: &'a B,
    /// How many workers there are at most.
    pub(crate) workers: usize,
    /// So many seconds a client may rest, if there is a limit.
    pub(crate) idle: Option<u64>,
    /// How often there was no connection to take.
    pub(crate) closed: &'a AtomicU64,
}

/// Serves a client as long as bytes are there. Lines after its first answers wait until others were served. Answers how many bytes the lines
/// have that were answered.
fn serve_seat<L: Ledger, D: Disk, K: ServiceLink + Drop, R: Threads + Wait + Clock + Sync>(
    rt: &R,
    coordinator: &Coordinator<L, D>,
    seat: &mut Seat<L, D, K>,
    buf: &mut [u8; 8192],
    lead: &Lead<'_, R>,
) -> usize {
    for _ in 0..MOST_STEPS {
        match seat.rest() {
            // A client that waited for this coordinator has a line.
            Rest::Due | Rest::Renewal => {
                if seat.has_line() {
                    return answer_lines(rt, coordinator, seat, buf, lead);
                }
                seat.receive(buf);
            }
            Rest::Read | Rest::Write | Rest::Receive => seat.receive(buf),
            Rest::Over(_) => return 0,
        }
        if let Rest::Read | Rest::Write = seat.rest() {
            return 0;
        }
    }
    0
}

/// Answers lines of a client, and reads what is there after them. Answers how many bytes they have.
fn answer_lines<L: Ledger, D: Disk, K: ServiceLink + Drop, R: Threads + Wait + Clock + Sync>(
    rt: &R,
    coordinator: &Coordinator<L, D>,
    seat: &mut Seat<L, D, K>,
    buf: &mut [u8; 8192],
    lead: &Lead<'_, R>,
) -> usize {
    let bytes = seat.unanswered();
    lead.before_bytes(bytes);
    seat.answer(rt, coordinator, lead);
    let asked = bytes.saturating_sub(seat.unanswered());
    for _ in 0..MOST_STEPS {
        match seat.rest() {
            Rest::Due => {
                // The last reply is handed on, and the lines after it come later.
                seat.receive(buf);
                return asked;
            }
            Rest::Receive => seat.receive(buf),
            Rest::Read | Rest::Write | Rest::Renewal | Rest::Over(_) => return asked,
        }
    }
    asked
}

impl<
    'a,
    L: Ledger,
    D: Disk,
    K: ServiceLink + Drop,
    T: Door<K>,
    B: Bell,
    R: Threads + Wait + Clock + Sync,
> Crew<'a, L, D, K, T, B, R> {
    /// Works until the workers end.
    pub(crate) fn work(&self) {
        let mut buf = [0u8; 8192];
        let Ok(happened) = Vec::with_capacity(self.alloc, MOST_CLIENTS) else {
            self.halt(Halt::Memory);
            return;
        };
        let mut outlook = Outlook { happened, waits: 0 };
        for _ in self.rt.forever() {
            match self.stir.next_task(self.rt) {
                Task::Lead => self.lead(&mut outlook, &mut buf),
                Task::Serve => if let Some(visit) = self.next_visit() {
                    self.serve(visit, &mut buf, false);
                },
                Task::Done => return,
            }
        }
    }

    /// The client that has to be served next, if there is one. Others are served by other workers.
    fn next_visit(&self) -> Option<Visit<L, D, K>> {
        let mut room = self.room.lock(self.rt);
        let visit = room.next_visit();
        self.stir.tell(self.rt, room.due(), 0, false);
        visit
    }

    /// Serves a client, and gives it back. Answers whether this worker has the place at the door after that. It had it before, if it leads.
    fn serve(&self, visit: Visit<L, D, K>, buf: &mut [u8; 8192], leads: bool) -> bool {
        let Visit {
            place,
            mut seat,
            due,
        } = visit;
        let earlier = seat.entries().len();
        let had_pass = seat.has_pass();
        let lead = Lead::new(self.rt, self.stir, leads, due);
        let asked = serve_seat(self.rt, self.coordinator, &mut seat, buf, &lead);
        let mut tally = Tally::of(earlier, seat.entries(), asked);
        if tally.turns() > 0 {
            lead.note_turns(tally.turns());
        }
        if tally.has_line() {
            let computing = lead.computing().saturating_mul(self.threads_of_a_line());
            tally = tally.with_computing(computing);
        }
        if seat.has_pass() && !had_pass {
            tally = tally.with_pass();
        }
        self.stir.end_visit();
        self.give_back(place, seat, tally, buf);
        lead.leads()
    }

    /// How many threads compute a line at most.
    fn threads_of_a_line(&self) -> u64 {
        let processes = match self.coordinator.progress() {
            Some(now) => now.processes,
            None => u32::MAX,
        };
        threads_for(processes, self.workers.clamp(1, 64)) as u64
    }

    /// Gives a client back, for which so much was done. Who is over is let go.
    fn give_back(&self, place: usize, seat: Seat<L, D, K>, tally: Tally, buf: &mut [u8; 8192]) {
        let halts = match seat.rest() {
            Rest::Over(_) => self.see_off(place, seat, tally, buf),
            _ => {
                let mut room = self.room.lock(self.rt);
                room.count(tally);
                room.put_back(place, seat, tally, self.idle, buf);
                let halts = room.halts();
                self.stir.tell(self.rt, room.due(), 1, halts);
                halts
            }
        };
        if halts {
            self.bell.ring();
        }
    }

    /// Lets a client go, for which so much was done. Answers whether the workers end.
    fn see_off(
        &self,
        place: usize,
        seat: Seat<L, D, K>,
        tally: Tally,
        buf: &mut [u8; 8192],
    ) -> bool {
        let (guest, answered) = seat.stand();
        let leaving = let_go(guest, buf);
        let mut room = self.room.lock(self.rt);
        room.count(tally);
        room.see_off(place, answered, leaving);
        let halts = room.halts();
        self.stir.tell(self.rt, room.due(), 1, halts);
        halts
    }

    /// The workers end for this.
    fn halt(&self, halt: Halt) {
        let mut room = self.room.lock(self.rt);
        room.halt(halt);
        self.stir.tell(self.rt, room.due(), 0, true);
        drop(room);
        self.bell.ring();
    }

    /// Whether the workers end. Then all are told so.
    fn halts(&self) -> bool {
        let room = self.room.lock(self.rt);
        let halts = room.halts();
        if halts {
            self.stir.tell(self.rt, room.due(), 0, true);
        }
        halts
    }

    /// Waits at the door, and serves what comes, until a line is to be computed, or many lines, or the workers end.
    fn lead(&self, outlook: &mut Outlook, buf: &mut [u8; 8192]) {
        for _ in self.rt.forever() {
            if self.halts() {
                return;
            }
            self.look(outlook, buf);
            let leads = self.serve_one(buf);
            self.room.lock(self.rt).pass_time(self.rt, self.idle, buf);
            if !leads {
                return;
            }
        }
    }

    /// Looks at the door, notes what happened, and takes clients.
    fn look(&self, outlook: &mut Outlook, buf: &mut [u8; 8192]) {
        let due = self.room.lock(self.rt).due();
        outlook.happened.clear();
        let mut door = self.door.lock(self.rt);
        let looked = if door.is_over() {
            Ok(false)
        } else if due > 0 {
            door.wait(Duration::ZERO, &mut outlook.happened)
        } else {
            self.wait_at(&mut *door, outlook)
        };
        let is_over = door.is_over();
        drop(door);
        let Ok(clients) = looked else {
            self.halt(Halt::Device);
            return;
        };
        if is_over {
            self.halt(Halt::Over);
            return;
        }
        let mut room = self.room.lock(self.rt);
        for event in outlook.happened.iter() {
            room.ring(*event, buf);
        }
        let due = room.due();
        drop(room);
        if clients {
            // If many have to be served, a storm of new ones does not keep them waiting.
            let most = if due < MOST_TAKEN { MOST_TAKEN } else { 1 };
            if !self.take_clients(most) {
                // The door pauses before it says so again, but only in a wait.
                outlook.waits = PATIENT_WAITS;
            }
        }
    }

    /// Waits at the door. If the last client was soon heard of again, it looks without waiting first.
    fn wait_at(&self, door: &mut T, outlook: &mut Outlook) -> io::Result<bool> {
        if outlook.waits > 0 {
            outlook.waits -= 1;
        } else if self.stir.is_idle() {
            if let Some(clients) = self.look_eagerly(door, outlook)? {
                return Ok(clients);
            }
            outlook.waits = PATIENT_WAITS;
        }
        door.wait(Duration::from_millis(MOST_WAITING), &mut outlook.happened)
    }

    /// Looks at the door without waiting, again and again for a short time. Answers whether clients may wait to be taken, if something happened.
    fn look_eagerly(&self, door: &mut T, outlook: &mut Outlook) -> io::Result<Option<bool>> {
        let start = Instant::now(self.rt).ok();
        for _ in 0..EAGER_LOOKS {
            let clients = door.wait(Duration::ZERO, &mut outlook.happened)?;
            // The bell may have ended this look, and does not ring again.
            if clients || outlook.happened.len() > 0 || door.is_over() || self.stir.halts(self.rt) {
                return Ok(Some(clients));
            }
            if micros_since(self.rt, &start) >= EAGER_MICROS {
                return Ok(None);
            }
        }
        Ok(None)
    }

    /// Takes so many of the clients that wait at most. Answers no if one could not be taken.
    fn take_clients(&self, most: usize) -> bool {
        for _ in 0..most {
            match self.take_client() {
                Ok(true) => {}
                Ok(false) => return true,
                Err(error) => if !is_of_one_client(&error) {
                    if is_for_now(&error) {
                        self.closed.fetch_add(1, Ordering::SeqCst);
                    } else {
                        self.halt(Halt::Device);
                    }
                    return false;
                },
            }
        }
        true
    }

    /// Takes a client, if one waits. If there is no place for it, it is closed at once.
    fn take_client(&self) -> io::Result<bool> {
        let Some(place) = self.room.lock(self.rt).reserve() else {
            let is_there = self.door.lock(self.rt).turn_away()?;
            if is_there {
                self.closed.fetch_add(1, Ordering::SeqCst);
            }
            return Ok(is_there);
        };
        let taken = self.door.lock(self.rt).accept(place);
        match taken {
            Ok(Some(guest)) => {
                self.room.lock(self.rt).welcome(place, guest);
                Ok(true)
            }
            Ok(None) => {
                self.room.lock(self.rt).release(place);
                Ok(false)
            }
            Err(error) => {
                self.room.lock(self.rt).release(place);
                Err(error)
            }
        }
    }

    /// Serves one of the clients that have to be served, if there is one, and has others served by other workers. Answers whether the place at
    /// the door was kept.
    fn serve_one(&self, buf: &mut [u8; 8192]) -> bool {
        let Some(visit) = self.next_visit() else {
            return true;
        };
        self.serve(visit, buf, true)
    }
}
