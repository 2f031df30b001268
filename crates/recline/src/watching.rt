//! A service is watched while it goes on, so that what its operator has to know is told when it comes.

ghost use Rattle.std.specs.Prelude.{◌≡◌, ◌-◌, IsTrue};
ghost use Rattle.recline.specs.Notices.{MayTell, TellsNotices};

use crate::notices::{MOST_LINES, MOST_PROCESSES, Notice, is_near, tell_where};
use client_link::Link;
use coordinator::Coordinator;
use crossbeam_channel::{Receiver, RecvTimeoutError};
use line_disk::Disk;
use std::sync::Wait;
use std::sync::atomic::{AtomicU64, Ordering};
use std::sync::ledger::Ledger;
use std::time::{Clock, Duration};

/// So many seconds a client waits before it is told of, and so many lie between two lines at least.
const SECONDS: usize = 5;

/// How many turns there are at most.
const MOST_TURNS: u32 = 65_536;

/// What the thread that takes the clients counts.
#[derive(Drop)]
pub(crate) struct Door {
    /// How many clients were taken.
    pub(crate) taken: AtomicU64,
    /// How often a time began in which there was no connection to take.
    pub(crate) closed: AtomicU64,
}

/// What was told already.
#[derive(Drop)]
pub(crate) struct Told {
    front: bool,
    processes: bool,
    sessions: bool,
    turns: bool,
    file: bool,
    /// Of so many times in which there was no connection to take.
    closed: u64,
}

impl Told {
    /// Nothing.
    fn nothing() -> Told {
        Told {
            front: false,
            processes: false,
            sessions: false,
            turns: false,
            file: false,
            closed: 0,
        }
    }
}

/// Tells a notice once it holds, if it was not told before.
fn tell_once<W: Link>(warnings: &mut W, told: &mut bool, holds: bool, notice: Notice)
    requires { IsTrue holds → MayTell notice }
    ensures { TellsNotices (W.told warnings.old) (W.told warnings.new) }
{
    tell_where(warnings, holds && !*told, notice);
    *told |= holds;
}

/// Tells what has come of the clients since the last look.
fn look_at_door<W: Link>(sessions: u64, door: &Door, told: &mut Told, warnings: &mut W)
    ensures { TellsNotices (W.told warnings.old) (W.told warnings.new) }
{
    let are_taken = door.taken.load(Ordering::SeqCst) >= sessions;
    tell_once(
        warnings,
        &mut told.sessions,
        are_taken,
        Notice::SessionsUsedUp,
    );
    let closed = door.closed.load(Ordering::SeqCst);
    tell_where(warnings, closed != told.closed, Notice::NoConnection);
    told.closed = closed;
}

/// Tells what has come of the coordinator since the last look, if no turn is under way.
fn look_at_turns<L: Ledger, D: Disk, W: Link>(
    coordinator: &Coordinator<L, D>,
    told: &mut Told,
    warnings: &mut W,
)
    ensures { TellsNotices (W.told warnings.old) (W.told warnings.new) }
{
    let Some(now) = coordinator.progress() else {
        return;
    };
    let is_front = is_near(MOST_LINES, now.front);
    tell_once(
        warnings,
        &mut told.front,
        is_front,
        Notice::Front(now.front),
    );
    let are_processes = is_near(MOST_PROCESSES, now.processes);
    tell_once(
        warnings,
        &mut told.processes,
        are_processes,
        Notice::Processes(now.processes),
    );
    let are_used_up = now.turns >= MOST_TURNS;
    tell_once(warnings, &mut told.turns, are_used_up, Notice::TurnsUsedUp);
    tell_once(warnings, &mut told.file, now.stopped, Notice::FileFailed);
}

/// How many of the clients that wait now waited before, where these were taken since then.
fn still_waiting(waiting: u64, taken: u64, taken_before: u64) -> u64
    ensures { result ≡ waiting - (taken - taken_before) }
{
    waiting.saturating_sub(taken.saturating_sub(taken_before))
}

/// Looks once a second how far a service has come, until what says that it goes on is dropped, and then once more. Tells at once, and once
/// each: that its sessions or its turns are used up, that its file failed, and that its front or its processes come near their limit; each
/// time that it begins, that no connection is taken; and how many clients have waited for five seconds for a worker, at most once in five
/// seconds. While a turn is under way, as one that waits for its device, what only the coordinator knows is told at a later look.
pub(crate) fn watch<L: Ledger, D: Disk, K: Drop, W: Link, R: Wait + Clock>(
    rt: &R,
    going: &Receiver<()>,
    coordinator: &Coordinator<L, D>,
    clients: &Receiver<K>,
    sessions: u64,
    door: &Door,
    warnings: &mut W,
)
    ensures { TellsNotices (W.told warnings.old) (W.told warnings.new) }
{
    let mut told = Told::nothing();
    // How many were taken at each of the last looks, the oldest first.
    let mut looks = [0u64; SECONDS];
    let mut silent = SECONDS;
    for _ in rt.forever() {
        let ended = going.recv_timeout(rt, Duration::from_secs(1));
        look_at_door(sessions, door, &mut told, warnings);
        look_at_turns(coordinator, &mut told, warnings);
        let Err(RecvTimeoutError::Timeout) = ended else {
            return;
        };
        // First who waits, so that nobody who comes or is taken in between counts.
        let waiting = clients.len() as u64;
        let now = door.taken.load(Ordering::SeqCst);
        let waiting = still_waiting(waiting, now, looks[0]);
        looks.rotate_left(1);
        looks[SECONDS - 1] = now;
        silent = silent.saturating_add(1);
        let is_due = waiting > 0 && silent >= SECONDS;
        tell_where(warnings, is_due, Notice::Waiting(waiting));
        if is_due {
            silent = 0;
        }
    }
}

/// Tells how many lines are checked at the end of a service, where that is under way for a second.
pub(crate) fn watch_end<W: Link, R: Wait + Clock>(
    rt: &R,
    going: &Receiver<()>,
    lines: u64,
    warnings: &mut W,
)
    ensures { TellsNotices (W.told warnings.old) (W.told warnings.new) }
{
    let ended = going.recv_timeout(rt, Duration::from_secs(1));
    let goes_on = matches!(ended, Err(RecvTimeoutError::Timeout));
    tell_where(warnings, goes_on, Notice::Checking(lines));
}

/// So many seconds lie at least between two lines that no connection is taken, where a service lasts.
const QUIET: u64 = 60;

/// Where a service that lasts tells what its operator has to know, and what it told already.
#[derive(Drop)]
pub(crate) struct Watched<W: Link + Drop> {
    warnings: W,
    told: Told,
    /// In which second it was told last that no connection is taken, if it was.
    closed_at: Option<u64>,
}

/// Whether it may be told again that no connection is taken.
fn is_quiet(closed_at: Option<u64>, seconds: u64) -> bool {
    match closed_at {
        Some(before) => seconds >= before.saturating_add(QUIET),
        None => true,
    }
}

impl<W: Link + Drop> Watched<W> {
    /// Nothing was told.
    pub(crate) fn new(warnings: W) -> Watched<W> {
        Watched {
            warnings,
            told: Told {
                turns: true,
                ..Told::nothing()
            },
            closed_at: None,
        }
    }

    /// Tells that no connection was taken since that was told last, at most once a minute.
    fn look_at_door(&mut self, closed: &AtomicU64, seconds: u64)
        ensures { TellsNotices (W.told self.old.warnings) (W.told self.new.warnings) }
    {
        let closed = closed.load(Ordering::SeqCst);
        let is_due = closed != self.told.closed && is_quiet(self.closed_at, seconds);
        tell_where(&mut self.warnings, is_due, Notice::NoConnection);
        if is_due {
            self.told.closed = closed;
            self.closed_at = Some(seconds);
        }
    }

    /// Looks once a second how far a coordinator has come, until what says that it goes on is dropped, and then once more, from this second on.
    /// Tells at once, and once each, that the file failed, and that the front or the processes come near their limit; and at most once a minute
    /// that no connection is taken.
    pub(crate) fn watch<L: Ledger, D: Disk, R: Wait + Clock>(
        &mut self,
        rt: &R,
        going: &Receiver<()>,
        coordinator: &Coordinator<L, D>,
        closed: &AtomicU64,
        seconds: u64,
    )
        ensures { TellsNotices (W.told self.old.warnings) (W.told self.new.warnings) }
    {
        let mut seconds = seconds;
        for _ in rt.forever() {
            let ended = going.recv_timeout(rt, Duration::from_secs(1));
            self.look_at_door(closed, seconds);
            look_at_turns(coordinator, &mut self.told, &mut self.warnings);
            let Err(RecvTimeoutError::Timeout) = ended else {
                return;
            };
            seconds = seconds.saturating_add(1);
        }
    }
}
