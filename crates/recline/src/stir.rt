//! What the workers of a service wait for.

use coordinator::Gate;
use knows_row::ChunkGate;
use std::sync::atomic::{AtomicBool, AtomicU64, AtomicUsize, Ordering};
use std::sync::{Condvar, Mutex, Wait};
use std::time::{Clock, Instant};

/// What there is to do.
#[derive(Clone, Copy)]
struct Signals {
    /// Whether a worker waits at the door.
    is_led: bool,
    /// How many clients have to be served.
    due: usize,
    /// Whether the workers end.
    halts: bool,
    /// How many workers wait.
    waiting: usize,
}

/// What a worker does next.
#[derive(Clone, Copy)]
pub(crate) enum Task {
    /// It waits at the door.
    Lead,
    /// It serves a client, if one still has to be served.
    Serve,
    /// Nothing more.
    Done,
}

/// What tells the workers that there is something to do.
pub(crate) struct Stir {
    signals: Mutex<Signals>,
    stirred: Condvar,
    /// How many workers serve a client.
    serving: AtomicUsize,
    /// Whether the turns of the last visit took long, as they do that wait for a disk.
    is_slow: AtomicBool,
}

impl Drop for Stir {
    fn drop(self) {
        let Stir {
            signals: _,
            stirred: _,
            serving: _,
            is_slow: _,
        } = self;
    }
}

impl Signals {
    /// Whether there is nothing to do.
    fn is_calm(&self) -> bool {
        self.is_led && self.due == 0 && !self.halts
    }

    /// What a worker does next, if there is something to do. To wait at the door comes first, since nobody is heard otherwise.
    fn next_task(&mut self) -> Task {
        if self.halts {
            return Task::Done;
        }
        if !self.is_led {
            self.is_led = true;
            return Task::Lead;
        }
        self.due = self.due.saturating_sub(1);
        Task::Serve
    }
}

impl Stir {
    /// So many clients have to be served, and nobody waits at the door.
    pub(crate) fn new(due: usize) -> Stir {
        Stir {
            signals: Mutex::new(Signals {
                is_led: false,
                due,
                halts: false,
                waiting: 0,
            }),
            stirred: Condvar::new(),
            serving: AtomicUsize::new(0),
            is_slow: AtomicBool::new(false),
        }
    }

    /// Waits until there is something to do.
    pub(crate) fn next_task<R: Wait>(&self, rt: &R) -> Task {
        let mut signals = self.signals.lock(rt);
        if signals.is_calm() {
            signals.waiting = signals.waiting.saturating_add(1);
            signals = self
                .stirred
                .wait_while(rt, signals, |signals| signals.is_calm());
            signals.waiting = signals.waiting.saturating_sub(1);
        }
        signals.next_task()
    }

    /// The worker that waited at the door does so no more. The next one that is free takes its place; none is woken for that.
    fn leave_door<R: Wait>(&self, rt: &R) {
        self.signals.lock(rt).is_led = false;
    }

    /// If no worker waits at the door, one that has nothing to do is woken for that.
    fn wake_leader<R: Wait>(&self, rt: &R) {
        let signals = self.signals.lock(rt);
        let wakes = !signals.is_led && signals.waiting > 0;
        drop(signals);
        if wakes {
            self.stirred.notify_one();
        }
    }

    /// Whether no worker serves a client.
    pub(crate) fn is_idle(&self) -> bool {
        self.serving.load(Ordering::SeqCst) == 0
    }

    /// Whether the workers end.
    pub(crate) fn halts<R: Wait>(&self, rt: &R) -> bool {
        self.signals.lock(rt).halts
    }

    /// One more worker serves a client. Answers whether others do.
    fn begin_visit(&self) -> bool {
        self.serving.fetch_add(1, Ordering::SeqCst) > 0
    }

    /// One worker less serves a client.
    pub(crate) fn end_visit(&self) {
        self.serving.fetch_sub(1, Ordering::SeqCst);
    }

    /// So many clients have to be served now, of whom this worker will serve so many itself, and whether the workers end.
    pub(crate) fn tell<R: Wait>(&self, rt: &R, due: usize, itself: usize, halts: bool) {
        let mut signals = self.signals.lock(rt);
        signals.due = due;
        signals.halts |= halts;
        let wanted = due.saturating_sub(itself).min(signals.waiting);
        drop(signals);
        if halts {
            self.stirred.notify_all();
            return;
        }
        for _ in 0..wanted {
            self.stirred.notify_one();
        }
    }
}

/// How many microseconds have passed since then.
pub(crate) fn micros_since<R: Clock>(rt: &R, start: &Option<Instant>) -> u64 {
    let Some(start) = start else {
        return 0;
    };
    match start.elapsed(rt) {
        Ok(time) => {
            let micros = time.as_secs().saturating_mul(1_000_000);
            micros.saturating_add(u64::from(time.subsec_micros()))
        }
        Err(_) => 0,
    }
}

/// If a visit answers more bytes than these, another worker watches the door meanwhile.
const FEW_BYTES: usize = 512;

/// A turn that takes more microseconds than these is slow.
const SLOW: u64 = 100;

/// What a worker has during a visit: perhaps the place at the door. If turns are slow and others are busy too, it leaves that place at once, so that
/// the first one that is free looks who has come. Otherwise it keeps the place, but not while a line is computed or many lines are answered, since
/// both take a while. It is the gate of the visit.
#[derive(Drop)]
pub(crate) struct Lead<'a, R> {
    rt: &'a R,
    stir: &'a Stir,
    /// Whether this worker has the place at the door.
    leads: AtomicBool,
    /// When the visit began.
    start: Option<Instant>,
    /// So many microseconds later a line began to be computed.
    line_at: AtomicU64,
}

impl<'a, R: Wait + Clock> Lead<'a, R> {
    /// At the beginning of a visit, while so many other clients have to be served.
    pub(crate) fn new(rt: &'a R, stir: &'a Stir, leads: bool, due: usize) -> Lead<'a, R> {
        let others = stir.begin_visit() || due > 0;
        let lead = Lead {
            rt,
            stir,
            leads: AtomicBool::new(leads),
            start: Instant::now(rt).ok(),
            line_at: AtomicU64::new(0),
        };
        if others && stir.is_slow.load(Ordering::SeqCst) {
            lead.leave_door();
        }
        lead
    }

    /// Whether the worker has the place at the door.
    pub(crate) fn leads(&self) -> bool {
        self.leads.load(Ordering::SeqCst)
    }

    /// Before so many bytes are answered.
    pub(crate) fn before_bytes(&self, bytes: usize) {
        if bytes > FEW_BYTES {
            self.give_up();
        }
    }

    /// How many microseconds have passed since a line began to be computed.
    pub(crate) fn computing(&self) -> u64 {
        micros_since(self.rt, &self.start).saturating_sub(self.line_at.load(Ordering::SeqCst))
    }

    /// So many turns were made in the visit, which ends.
    pub(crate) fn note_turns(&self, turns: u64) {
        let took = micros_since(self.rt, &self.start);
        self.stir
            .is_slow
            .store(took > SLOW.saturating_mul(turns), Ordering::SeqCst);
    }

    /// Leaves the place at the door, if the worker has it.
    fn leave_door(&self) {
        if self.leads.swap(false, Ordering::SeqCst) {
            self.stir.leave_door(self.rt);
        }
    }

    /// Before what takes a while: another worker has the place at the door from then on, if one is free.
    fn give_up(&self) {
        self.leave_door();
        self.stir.wake_leader(self.rt);
    }
}

impl<'a, R: Wait + Clock> ChunkGate for Lead<'a, R> {
    fn before_chunk(&self, _run: u64) {}
}

impl<'a, R: Wait + Clock> Gate for Lead<'a, R> {
    fn before_line(&self, _pass: u64) {
        self.line_at
            .store(micros_since(self.rt, &self.start), Ordering::SeqCst);
        self.give_up();
    }
}
