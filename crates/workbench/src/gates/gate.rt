//! A gate at which lines wait for other threads.

use crate::output::Output;
use coordinator::Gate;
use knows_row::ChunkGate;
use std::alloc::Global;
use std::io::Write;
use std::sync::atomic::{AtomicU64, Ordering};
use std::thread;

/// Where a line waits.
#[derive(Clone, Copy)]
pub enum Place {
    /// Nowhere.
    Open,
    /// In a session, before it is computed, until another thread opens the gate.
    Session,
    /// The same out of a session.
    Line,
    /// Before its first run, until another thread opens the gate.
    Run,
    /// Before its first run until the second one begins, and the other way round.
    Runs,
}

/// A gate that counts lines and runs, and at which a line waits at one place.
#[derive(Drop)]
pub struct HeldGate {
    place: Place,
    /// The number of the last pass that asked for a line.
    pass: AtomicU64,
    lines: AtomicU64,
    /// How many first, second, third and later runs there were.
    first: AtomicU64,
    second: AtomicU64,
    third: AtomicU64,
    later: AtomicU64,
    reached: AtomicU64,
    opened: AtomicU64,
    /// How often a thread waited in vain.
    late: AtomicU64,
}

/// Waits until the word is not 0; whether it is, in good time.
pub fn wait_for(word: &AtomicU64) -> bool {
    for _ in 0..10_000_000u64 {
        if word.load(Ordering::SeqCst) != 0 {
            return true;
        }
        thread::yield_now();
    }
    false
}

impl HeldGate {
    /// Nothing was counted yet, and lines wait at this place.
    pub fn new(place: Place) -> HeldGate {
        HeldGate {
            place,
            pass: AtomicU64::new(0),
            lines: AtomicU64::new(0),
            first: AtomicU64::new(0),
            second: AtomicU64::new(0),
            third: AtomicU64::new(0),
            later: AtomicU64::new(0),
            reached: AtomicU64::new(0),
            opened: AtomicU64::new(0),
            late: AtomicU64::new(0),
        }
    }

    // Waits for the word, and counts where that was in vain.
    fn meet(&self, word: &AtomicU64) {
        if !wait_for(word) {
            self.late.fetch_add(1, Ordering::SeqCst);
        }
    }

    // Tells that the gate was reached, and waits there.
    fn hold(&self) {
        self.reached.store(1, Ordering::SeqCst);
        self.meet(&self.opened);
    }

    /// Whether a line waits in a session.
    pub fn is_of_session(&self) -> bool {
        matches!(self.place, Place::Session)
    }

    /// Waits until a line is held here, if one will be.
    pub fn wait(&self) {
        match self.place {
            Place::Open | Place::Runs => {}
            Place::Session | Place::Line | Place::Run => self.meet(&self.reached),
        }
    }

    /// Lets the line go on.
    pub fn open(&self) {
        self.opened.store(1, Ordering::SeqCst);
    }

    // Counts a run.
    fn count(&self, run: u64) {
        let count = match run {
            1 => &self.first,
            2 => &self.second,
            3 => &self.third,
            _ => &self.later,
        };
        count.fetch_add(1, Ordering::SeqCst);
    }

    // Waits before a run.
    fn wait_before(&self, run: u64) {
        match (self.place, run) {
            (Place::Run, 1) => self.hold(),
            (Place::Runs, 1) => self.meet(&self.second),
            (Place::Runs, 2) => self.meet(&self.first),
            _ => {}
        }
    }

    // Writes how many runs there were.
    fn put_runs<W: Write + Drop>(&self, alloc: Global, out: &mut Output<W>) {
        let first = self.first.load(Ordering::SeqCst);
        let second = self.second.load(Ordering::SeqCst);
        let third = self.third.load(Ordering::SeqCst);
        let later = self.later.load(Ordering::SeqCst);
        out.put_made(format!(in alloc; " RUNS {first} {second} {third} {later}"));
    }

    // Writes how many lines there were, and the pass of the last one.
    fn put_lines<W: Write + Drop>(&self, alloc: Global, out: &mut Output<W>) {
        let lines = self.lines.load(Ordering::SeqCst);
        let pass = self.pass.load(Ordering::SeqCst);
        out.put_made(format!(in alloc; "LINES {lines} LAST {pass}"));
    }

    /// Writes what was counted.
    pub fn put<W: Write + Drop>(&self, alloc: Global, out: &mut Output<W>) {
        self.put_lines(alloc, out);
        self.put_runs(alloc, out);
        let late = self.late.load(Ordering::SeqCst);
        out.put_made(format!(in alloc; " LATE {late}\n"));
    }
}

impl ChunkGate for HeldGate {
    fn before_chunk(&self, run: u64) {
        self.count(run);
        self.wait_before(run);
    }
}

impl Gate for HeldGate {
    fn before_line(&self, pass: u64) {
        self.pass.store(pass, Ordering::SeqCst);
        self.lines.fetch_add(1, Ordering::SeqCst);
        match self.place {
            Place::Session | Place::Line => self.hold(),
            Place::Open | Place::Run | Place::Runs => {}
        }
    }
}
