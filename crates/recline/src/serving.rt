//! The command `serve`.

ghost use Rattle.std.specs.Prelude.{◌≡◌, ◌+◌, ◌++◌, ◌<◌, ◌≤◌, IsTrue, ℕ, IfOk, IfErr, IfSome, IfNone, MatchResult, OnOk, [], None, length, map};
ghost use Rattle.std.specs.List.{flat_map};
ghost use Rattle.std.specs.Thread.{IsSend, IsSync};
ghost use Rattle.recline.specs.working.Driving.{Writes};
ghost use Rattle.recline.specs.Serving.{AreEnough, AreLimited, AreServed, IsService, IsServed, IsStopped, ServesOn, ServesUntil, Stops, TellsDropped, dropped_in, drops, end_line, port_line, stop_line, stopped_by};
ghost use Rattle.recline.specs.working.Serving.{EndsNot, EndsShort, EndsWith, PrintsPort, StopsBehind};
ghost use Rattle.coordinator.specs.Closing.{IsEnded, IsRemainder};
ghost use Rattle.coordinator.specs.Passes.{ledger_parts};

use crate::clients::{ClientSource, Listened};
use crate::door::is_of_one_client;
use crate::host::ServiceRuntime;
use crate::telling::{tell, tell_all, tell_unopened, write_pieces};
use crate::watching::{Door, watch, watch_end};
use client_link::{ClientConnection, Link, LinkFault};
use coordinator::{CloseFault, Coordinator, Ended, Entry, OpenGate, Pass, Refused, Remainder};
use crossbeam_channel::{Receiver, SendTimeoutError, Sender, bounded};
use desk::Desk;
use itoa::Buffer;
use line_disk::Disk;
use report_line::Reply;
use session::{Served, SessionEndKind, workers};
use std::alloc::{AllocError, Global};
use std::io::{self, ErrorKind};
use std::marker::Brand;
use std::net::{OpenListener, TcpStream};
use std::sync::Wait;
use std::sync::atomic::{AtomicU64, Ordering};
use std::sync::ledger::{Blank, Ledger};
use std::thread::{scope, scope_env, sleep};
use std::time::{Clock, Duration};

/// How many clients wait at most for a worker, while others may still connect.
const MOST_WAITING: u64 = 256;

/// How many sessions a service has, by how many workers, and how long a client may rest.
#[derive(Clone, Copy)]
pub struct Service {
    /// The number of sessions, 1 to 4,096.
    pub sessions: u64,
    /// The number of workers, 1 to 64.
    pub workers: u64,
    /// How many seconds a client may rest from one LF to the next, or a write may wait for it, at least 1, if there is a limit.
    pub idle: Option<u64>,
}

impl Service {
    /// The service of these numbers, if they are within their limits.
    pub fn new(sessions: u64, workers: u64, idle: Option<u64>) -> Option<Service>
        ensures some { IfSome result (λ s. IsService s × (s.sessions ≡ sessions) × (s.workers ≡ workers) × (s.idle ≡ idle)) }
        ensures none { IfNone result (¬ AreLimited sessions workers idle) }
    {
        let waits = match idle {
            Some(seconds) => seconds > 0,
            None => true,
        };
        if sessions > 0 && sessions <= 4096 && workers > 0 && workers <= 64 && waits {
            Some(Service {
                sessions,
                workers,
                idle,
            })
        } else {
            None
        }
    }
}

/// Why a service stops before its end.
#[derive(Clone, Copy)]
pub(crate) enum Stop {
    /// The listener failed for good, or standard output did.
    Device,
    /// Memory was wanting.
    Memory,
    /// What the clients were shown is not what the desk answered. No true run meets it.
    Foreign,
}

/// Why a service stops whose turns are not those of its passes.
pub(crate) fn stop_of(fault: &CloseFault) -> Stop
    ensures { result ≡ stopped_by fault.now }
{
    match fault {
        CloseFault::Memory => Stop::Memory,
        CloseFault::Stranger(_) | CloseFault::Missing { .. } => Stop::Foreign,
    }
}

/// The fault line for it.
pub(crate) fn line_of(stop: Stop) -> &'static [u8]
    ensures { result.now ≡ stop_line stop }
{
    match stop {
        Stop::Device => b"recline: device\n".as_slice(),
        Stop::Memory => b"recline: memory\n".as_slice(),
        Stop::Foreign => b"recline: foreign\n".as_slice(),
    }
}

/// Tells the port.
pub(crate) fn write_port<O: Link>(output: &mut O, port: u16) -> Result<(), LinkFault>
    ensures { Writes (O.told output.old) (O.told output.new) result (port_line port) }
{
    let mut digits = Buffer::new();
    write_pieces(
        output,
        &[
            b"PORT ".as_slice(),
            digits.format(port).as_bytes(),
            b"\n".as_slice(),
        ],
    )
}

/// Tells the front at the end.
pub(crate) fn write_end<O: Link>(output: &mut O, front: u32) -> Result<(), LinkFault>
    ensures { Writes (O.told output.old) (O.told output.new) result (end_line front) }
{
    let mut digits = Buffer::new();
    write_pieces(
        output,
        &[
            b"ENDED ".as_slice(),
            digits.format(front).as_bytes(),
            b"\n".as_slice(),
        ],
    )
}

/// The system's errors when it has no connection to give for a while: ENOMEM, ENFILE, EMFILE and ENOBUFS, when memory, descriptors of all
/// programs or of this one, or buffers are used up; and those of a connection that failed before it was accepted: EPERM (a firewall), ENONET,
/// EPROTO, ENOPROTOOPT, ENETDOWN, ENETUNREACH, EHOSTDOWN and EHOSTUNREACH.
const PASSING: [i32; 12] = [1, 12, 23, 24, 64, 71, 92, 100, 101, 105, 112, 113];

/// After so many milliseconds a connection is asked for again.
const PAUSE: u64 = 100;

/// Whether there may be a connection to accept a little later.
pub(crate) fn is_passing(error: &io::Error) -> bool {
    match error.raw_os_error() {
        Some(number) => PASSING.contains(&number),
        None => matches!(error.kind(), ErrorKind::OutOfMemory),
    }
}

/// A source of clients where the service is to end, and how many clients were taken by then.
#[derive(Drop)]
struct Over<T: ClientSource + Drop> {
    source: T,
    taken: u64,
    ghost over: { ∥ T.is_over source ∥₁ },
}

/// The next client, if the service is not to end. A connection that was aborted before it was accepted is skipped. If there is none to accept for
/// a while, that is counted, and the system is asked again.
fn next_client<T: ClientSource, R: Wait + Clock>(
    rt: &R,
    source: &mut T,
    door: &Door,
) -> Result<Option<TcpStream>, Stop>
    ensures { IfOk result (λ client. client ≡ None → T.is_over source.new) }
{
    let mut is_closed = false;
    for _ in rt.forever() {
        match source.next_client() {
            Ok(client) => return Ok(client),
            Err(error) => if !is_of_one_client(&error) {
                if !is_passing(&error) {
                    return Err(Stop::Device);
                }
                if !is_closed {
                    door.closed.fetch_add(1, Ordering::SeqCst);
                }
                is_closed = true;
                sleep(rt, Duration::from_millis(PAUSE));
            },
        }
    }
    Err(Stop::Device)
}

/// Hands a client to the workers, as soon as there is room for it. Answers whether the service is to end, where there was none so far.
fn hand_over<T: ClientSource, R: Wait + Clock + Clone + Drop>(
    rt: &R,
    source: &mut T,
    links: &Sender<ClientConnection<R>>,
    link: ClientConnection<R>,
) -> Result<bool, Stop>
    ensures { IfOk result (λ over. IsTrue over → T.is_over source.new) }
{
    let mut link = link;
    for _ in rt.forever() {
        match links.send_timeout(rt, link, Duration::from_millis(PAUSE)) {
            Ok(()) => return Ok(false),
            Err(SendTimeoutError::Timeout(back)) => {
                if source.look() {
                    return Ok(true);
                }
                link = back;
            }
            Err(SendTimeoutError::Disconnected(_) | SendTimeoutError::OutOfMemory(_)) => {
                return Err(Stop::Memory);
            }
        }
    }
    Err(Stop::Memory)
}

/// Takes clients, counts them, and hands them to the workers, until there were so many, or the service is to end. Each client that is taken is a
/// session.
fn take_clients<T: ClientSource + Drop, R: Wait + Clock + Clone + Drop>(
    rt: &R,
    alloc: Global,
    source: T,
    service: Service,
    door: &Door,
    links: Sender<ClientConnection<R>>,
) -> Result<Option<Over<T>>, Stop> {
    let mut source = source;
    let idle = match service.idle {
        Some(seconds) => Some(Duration::from_secs(seconds)),
        None => None,
    };
    let mut taken = 0u64;
    for _ in rt.forever() {
        if taken >= service.sessions {
            return Ok(None);
        }
        let Some(client) = next_client(rt, &mut source, door)? else {
            return Ok(Some(Over { source, taken }));
        };
        let Ok(clock) = rt.clone() else {
            return Err(Stop::Memory);
        };
        let Ok(link) = ClientConnection::of_client(alloc, clock, client, idle, source.end()) else {
            return Err(Stop::Memory);
        };
        door.taken.fetch_add(1, Ordering::SeqCst);
        if hand_over(rt, &mut source, &links, link)? {
            return Ok(Some(Over { source, taken }));
        }
        taken += 1;
    }
    Ok(None)
}

/// What is left of a service that stops before its end.
#[derive(Drop)]
struct Stopped<D: Disk> {
    /// Why it stops.
    stop: Stop,
    /// The disk.
    disk: D,
}

/// What is left where no client was served.
fn unserved<D: Disk>(stop: Stop, desk: Desk<D>) -> Stopped<D>
    ensures { (result.stop ≡ stop) × (result.disk ≡ desk.disk) }
{
    Stopped {
        stop,
        disk: desk.close(),
    }
}

/// The passes of the sessions that there were, how many of their clients were dropped, why there were no more, if the service stops or is to
/// end, and the link of notices, if its thread gave it back.
#[derive(Drop)]
struct Sessions<L: Ledger, T: ClientSource + Drop, W: Link + Drop> {
    passes: Vec<Pass<L>>,
    dropped: u64,
    stop: Option<Stop>,
    over: Option<Over<T>>,
    warnings: Option<W>,
}

/// Serves so many sessions over a coordinator by so many workers, while one more thread takes the clients, and another one prints what the
/// operator has to know. If one of these two cannot be started, nobody is served. Answers for each worker its sessions, why there are no more, if
/// the service stops or is to end, and the link of notices, if its thread gave it back.
fn serve_sessions<
    L: Ledger + Send + Sync,
    D: Disk + Send + Drop,
    T: ClientSource + Send + Drop,
    W: Link + Send + Drop,
    R: ServiceRuntime,
>(
    rt: &R,
    alloc: Global,
    source: T,
    coordinator: &Coordinator<L, D>,
    service: Service,
    warnings: W,
) -> (
    Vec<Vec<Served<L, D, ClientConnection<R>>>>,
    Option<Stop>,
    Option<Over<T>>,
    Option<W>,
)
    requires { IsService service }
{
    let Ok((links, clients)) = bounded::<ClientConnection<R>, _>(
        alloc,
        service.sessions.min(MOST_WAITING) as usize,
    ) else {
        return (Vec::new(alloc), Some(Stop::Memory), None, Some(warnings));
    };
    let watched: Result<Receiver<ClientConnection<R>>, AllocError> = clients.clone();
    let (Ok((goes_on, going)), Ok(watched)) = (bounded::<(), _>(alloc, 1), watched) else {
        return (Vec::new(alloc), Some(Stop::Memory), None, Some(warnings));
    };
    let n = service.workers as usize;
    let open = Door {
        taken: AtomicU64::new(0),
        closed: AtomicU64::new(0),
    };
    let door = &open;
    scope(
        scope_env(),
        rt,
        move |scope| -> (
            Vec<Vec<Served<L, D, ClientConnection<R>>>>,
            Option<Stop>,
            Option<Over<T>>,
            Option<W>,
        )
            requires { IsSync R.row × IsSend L.row × IsSync L.row × IsSend R.row × IsSend D.row × IsSend T.row × IsSend W.row × (0 < n) × (n ≤ 64) }
        {
            let watcher = scope.spawn(
                move || -> W
                    requires { IsSync R.row × IsSend R.row × IsSend L.row × IsSync L.row × IsSend D.row × IsSend W.row }
                {
                    let mut warnings = warnings;
                    watch(
                        rt,
                        &going,
                        coordinator,
                        &watched,
                        service.sessions,
                        door,
                        &mut warnings,
                    );
                    warnings
                },
            );
            let Ok(watcher) = watcher else {
                return (Vec::new(alloc), Some(Stop::Memory), None, None);
            };
            let taker = scope.spawn(
                move || -> Result<Option<Over<T>>, Stop>
                    requires { IsSync R.row × IsSend R.row × IsSend T.row }
                { take_clients(rt, alloc, source, service, door, links) },
            );
            let Ok(taker) = taker else {
                return (Vec::new(alloc), Some(Stop::Memory), None, None);
            };
            let served = workers(rt, alloc, coordinator, &OpenGate, n, clients);
            // After this no worker takes a client, and while another receiver is there the taker would wait for one.
            drop(goes_on);
            let warnings = Some(watcher.join(rt));
            let (over, stop) = match taker.join(rt) {
                Ok(over) => (over, None),
                Err(stop) => (None, Some(stop)),
            };
            match served {
                Ok(lists) => (lists, stop, over, warnings),
                Err(_) => (Vec::new(alloc), Some(Stop::Memory), None, warnings),
            }
        },
    )
}

/// How many clients were dropped once a session more ended so.
fn dropped_by(dropped: u64, kind: SessionEndKind) -> Result<u64, AllocError>
    ensures { IfOk result (λ n. n ≡ dropped + drops kind) }
{
    match kind {
        // There are never so many sessions that this fails.
        SessionEndKind::Memory => dropped.checked_add(1).ok_or(AllocError),
        SessionEndKind::End
        | SessionEndKind::Bye
        | SessionEndKind::TooLong
        | SessionEndKind::Worn
        | SessionEndKind::ReadFailed
        | SessionEndKind::WriteFailed
        | SessionEndKind::Endless
        | SessionEndKind::Foreign => Ok(dropped),
    }
}

/// Adds the passes of the sessions, and those of their clients that were dropped. If memory is missing, later sessions are left out.
fn add_passes<L: Ledger, D: Disk, K: Link + Drop>(
    passes: &mut Vec<Pass<L>>,
    dropped: &mut u64,
    served: Vec<Served<L, D, K>>,
) -> Result<(), AllocError>
    requires { AreServed D.keeps D.view K.told passes.old.items dropped.old }
    ensures served { AreServed D.keeps D.view K.told passes.new.items dropped.new }
    ensures passes { OnOk result (passes.new.items ≡ passes.old.items ++ map (λ s. s.pass) served.items) }
    ensures dropped { OnOk result (dropped.new ≡ dropped.old + dropped_in (map (λ s. s.end.kind) served.items)) }
{
    for session in served {
        let Served {
            pass,
            link: _,
            end,
            disk: _,
        } = session;
        let more = dropped_by(*dropped, end.kind)?;
        passes.push(pass)?;
        *dropped = more;
    }
    Ok(())
}

/// The passes of all sessions, one worker's after another, and how many clients were dropped. If memory is missing for them, the service
/// stops, and later sessions are left out.
#[tactic(auto, using(crate::proofs::Passes::none_served))]
fn passes_of<L: Ledger, D: Disk, K: Link + Drop, T: ClientSource + Drop, W: Link + Drop>(
    mut passes: Vec<Pass<L>>,
    lists: Vec<Vec<Served<L, D, K>>>,
    stop: Option<Stop>,
    over: Option<Over<T>>,
    warnings: Option<W>,
) -> Sessions<L, T, W>
    requires { passes.items ≡ [] }
    ensures served { AreServed D.keeps D.view K.told result.passes.items result.dropped }
    ensures passes { result.stop ≡ None → result.passes.items ≡ flat_map (λ l. map (λ s. s.pass) l.items) lists.items }
    ensures dropped { result.stop ≡ None → result.dropped ≡ dropped_in (flat_map (λ l. map (λ s. s.end.kind) l.items) lists.items) }
    ensures stop { result.stop ≡ None → stop ≡ None }
{
    let mut dropped = 0u64;
    for served in lists {
        let Ok(()) = add_passes(&mut passes, &mut dropped, served) else {
            return Sessions {
                passes,
                dropped,
                stop: Some(Stop::Memory),
                over,
                warnings,
            };
        };
    }
    Sessions {
        passes,
        dropped,
        stop,
        over,
        warnings,
    }
}

/// Tells the port, and serves clients over a coordinator.
#[tactic(auto, using(crate::proofs::Passes::none_served))]
fn serve_clients<
    L: Ledger + Send + Sync,
    D: Disk + Send + Drop,
    T: ClientSource + Send + Drop,
    O: Link,
    W: Link + Send + Drop,
    R: ServiceRuntime,
>(
    rt: &R,
    alloc: Global,
    source: T,
    coordinator: &Coordinator<L, D>,
    passes: Vec<Pass<L>>,
    port: u16,
    service: Service,
    output: &mut O,
    warnings: W,
) -> Sessions<L, T, W>
    requires service { IsService service }
    requires none { passes.items ≡ [] }
    ensures served { AreServed D.keeps D.view ⟦<ClientConnection<R> as Link>⟧.told result.passes.items result.dropped }
    ensures printed { PrintsPort result.stop (O.told output.old) (O.told output.new) }
{
    let Ok(()) = write_port(output, port) else {
        return Sessions {
            passes,
            dropped: 0,
            stop: Some(Stop::Device),
            over: None,
            warnings: Some(warnings),
        };
    };
    let (lists, stop, over, warnings) = serve_sessions(
        rt,
        alloc,
        source,
        coordinator,
        service,
        warnings,
    );
    passes_of(passes, lists, stop, over, warnings)
}

/// How many sessions there have to be: all that were wanted, or as many as clients were taken where the service is to end.
fn sessions_due<L: Ledger, T: ClientSource + Drop, W: Link + Drop>(
    sessions: &Sessions<L, T, W>,
    wanted: u64,
) -> u64
    ensures { AreEnough T.is_over wanted result }
{
    match &sessions.over {
        Some(over) if over.taken < wanted => over.taken,
        _ => wanted,
    }
}

/// Why the service stops behind its sessions, if it does. A worker without memory stops, and leaves clients unserved.
fn stop_behind<L: Ledger, T: ClientSource + Drop, W: Link + Drop>(
    sessions: &Sessions<L, T, W>,
    wanted: u64,
) -> Option<Stop>
    ensures { StopsBehind sessions.now.stop (length sessions.now.passes.items) wanted result }
{
    if sessions.stop.is_none() && sessions.passes.len() as u64 != wanted {
        return Some(Stop::Memory);
    }
    sessions.stop
}

/// What is left if the passes are not those of all turns.
fn stopped_with<D: Disk>(remainder: Remainder<D>) -> Stopped<D>
    ensures { (result.stop ≡ stopped_by remainder.fault) × (result.disk ≡ remainder.ended.disk) }
{
    let Remainder { fault, ended } = remainder;
    let Ended { disk, .. } = ended;
    Stopped {
        stop: stop_of(&fault),
        disk,
    }
}

/// Whether the client was shown a line.
fn shows_line(entry: &Entry) -> bool {
    matches!(entry.shown(), Reply::Line(_))
}

/// How many lines clients were shown.
fn lines_in<L: Ledger>(passes: &[Pass<L>]) -> u64 {
    let mut lines = 0u64;
    for pass in passes {
        for entry in pass.entries() {
            if shows_line(entry) {
                lines = lines.saturating_add(1);
            }
        }
    }
    lines
}

/// Ends a coordinator with these passes. If that takes longer than a second, it is printed how many lines are checked, provided that there is
/// a link of notices and a thread for it.
fn finish_watched<
    L: Ledger + Send + Sync,
    D: Disk + Send + Drop,
    W: Link + Send + Drop,
    R: ServiceRuntime,
>(
    rt: &R,
    alloc: Global,
    coordinator: Coordinator<L, D>,
    passes: Vec<Pass<L>>,
    warnings: Option<W>,
) -> Result<Ended<D>, Remainder<D>>
    ensures ok { IfOk result (λ e. IsEnded D.keeps D.view coordinator passes.items e.turns e.front e.disk) }
    ensures left { IfErr result (λ r. IsRemainder D.keeps D.view coordinator passes.items r.fault r.ended.turns r.ended.front r.ended.disk) }
{
    let (Some(warnings), Ok((goes_on, going))) = (warnings, bounded::<(), _>(alloc, 1)) else {
        return coordinator.finish(passes);
    };
    let lines = lines_in(passes.as_slice());
    scope(
        scope_env(),
        rt,
        move |scope| -> Result<Ended<D>, Remainder<D>>
            requires { IsSync R.row × IsSend R.row × IsSend W.row }
            ensures { IfOk result (λ e. IsEnded D.keeps D.view coordinator passes.items e.turns e.front e.disk) × IfErr result (λ r. IsRemainder D.keeps D.view coordinator passes.items r.fault r.ended.turns r.ended.front r.ended.disk) }
        {
            let watcher = scope.spawn(
                move ||
                    requires { IsSync R.row × IsSend R.row × IsSend W.row }
                {
                    let mut warnings = warnings;
                    watch_end(rt, &going, lines, &mut warnings)
                },
            );
            let finished = coordinator.finish(passes);
            drop(goes_on);
            if let Ok(watcher) = watcher {
                watcher.join(rt);
            }
            finished
        },
    )
}

/// Ends the service whose coordinator ended so, and tells the end if the service does not stop. Answers the disk.
fn end_service<D: Disk + Drop, O: Link>(
    finished: Result<Ended<D>, Remainder<D>>,
    stop: Option<Stop>,
    output: &mut O,
) -> Result<D, Stopped<D>>
    ensures ended { IfOk finished (λ e. MatchResult result (λ disk. EndsWith stop e.front e.disk (O.told output.old) (O.told output.new) disk) (λ s. EndsShort stop e.front e.disk (O.told output.old) (O.told output.new) s.disk s.stop)) }
    ensures remains { IfErr finished (λ r. MatchResult result (λ disk. ⊥) (λ s. EndsNot r.fault r.ended.disk (O.told output.old) (O.told output.new) s.disk s.stop)) }
{
    let Ended {
        disk,
        front,
        turns: _,
    } = match finished {
        Ok(ended) => ended,
        Err(remainder) => return Err(stopped_with(remainder)),
    };
    if let Some(stop) = stop {
        return Err(Stopped { stop, disk });
    }
    match write_end(output, front) {
        Ok(()) => Ok(disk),
        Err(_) => Err(Stopped {
            stop: Stop::Device,
            disk,
        }),
    }
}

/// Tells the port, serves clients over a coordinator, ends it with their passes, and tells the end. Answers the disk, and how many clients
/// were dropped.
fn serve_over<
    L: Ledger + Send + Sync,
    D: Disk + Send + Drop,
    T: ClientSource + Send + Drop,
    O: Link,
    W: Link + Send + Drop,
    R: ServiceRuntime,
>(
    rt: &R,
    alloc: Global,
    source: T,
    coordinator: Coordinator<L, D>,
    passes: Vec<Pass<L>>,
    port: u16,
    service: Service,
    output: &mut O,
    warnings: W,
) -> Result<(D, u64), Stopped<D>>
    requires service { IsService service }
    requires none { passes.items ≡ [] }
    ensures ok { IfOk result (λ r. (due : ℕ) × AreEnough T.is_over service.sessions due × IsServed D.keeps D.view ⟦<ClientConnection<R> as Link>⟧.told coordinator due r.1 (O.told output.old) (O.told output.new) r.0) }
    ensures err { IfErr result (λ s. (due : ℕ) × AreEnough T.is_over service.sessions due × IsStopped D.keeps D.view ⟦<ClientConnection<R> as Link>⟧.told coordinator due (O.told output.old) (O.told output.new) s.disk s.stop) }
{
    let sessions = serve_clients(
        rt,
        alloc,
        source,
        &coordinator,
        passes,
        port,
        service,
        output,
        warnings,
    );
    let due = sessions_due(&sessions, service.sessions);
    let stop = stop_behind(&sessions, due);
    let dropped = sessions.dropped;
    let finished = finish_watched(rt, alloc, coordinator, sessions.passes, sessions.warnings);
    match end_service(finished, stop, output) {
        Ok(disk) => Ok((disk, dropped)),
        Err(stopped) => Err(stopped),
    }
}

/// Serves clients over the desk behind a lock, tells the port and the end, and hands back the disk, with how many clients were dropped.
fn serve_desk<
    L: Ledger + Send + Sync,
    D: Disk + Send + Drop,
    T: ClientSource + Send + Drop,
    O: Link,
    W: Link + Send + Drop,
    R: ServiceRuntime,
>(
    rt: &R,
    alloc: Global,
    blank: Blank,
    source: T,
    desk: Desk<D>,
    service: Service,
    output: &mut O,
    warnings: W,
) -> Result<(D, u64), Stopped<D>>
    requires name { blank.name ≡ L.name }
    requires parts { (blank.parts ≡ L.parts) × (blank.parts ≡ ledger_parts) }
    requires fresh { desk.turns ≡ [] }
    requires service { IsService service }
    ensures ok { IfOk result (λ r. (due : ℕ) × AreEnough T.is_over service.sessions due × IsServed D.keeps D.view ⟦<ClientConnection<R> as Link>⟧.told desk.opening due r.1 (O.told output.old) (O.told output.new) r.0) }
    ensures err { IfErr result (λ s. (due : ℕ) × AreEnough T.is_over service.sessions due × Stops D.keeps D.view ⟦<ClientConnection<R> as Link>⟧.told desk due (O.told output.old) (O.told output.new) s.disk s.stop) }
{
    let Ok(passes) = Vec::with_capacity(alloc, service.sessions as usize) else {
        return Err(unserved(Stop::Memory, desk));
    };
    let Ok(address) = source.local_addr() else {
        return Err(unserved(Stop::Device, desk));
    };
    let workers = service.workers as usize;
    match Coordinator::<L, D>::with_workers(alloc, blank, desk, workers) {
        Ok(coordinator) => serve_over(
            rt,
            alloc,
            source,
            coordinator,
            passes,
            address.port(),
            service,
            output,
            warnings,
        ),
        Err(Refused { blank: _, desk }) => Err(unserved(Stop::Memory, desk)),
    }
}

/// Tells how many clients were dropped since memory was wanting, if there were some.
fn tell_dropped<F: Link>(faults: &mut F, dropped: u64)
    ensures { TellsDropped F.told faults.old faults.new dropped }
{
    if dropped == 0 {
        return;
    }
    let mut digits = Buffer::new();
    tell_all(
        faults,
        &[
            b"recline: dropped ".as_slice(),
            digits.format(dropped).as_bytes(),
            b"\n".as_slice(),
        ],
    )
}

/// The command `serve` with its end by request: opens the record file on a disk, tells the port, serves so many sessions over one desk, or
/// fewer where the source of clients says that the service is to end, by so many workers, of which each computes lines by as many threads at
/// most, holds what the clients were shown against the turns, and tells how many reports were accepted, and how many clients were dropped for
/// want of memory, if some were. What has come while it goes on, as that its sessions are used up, lines on a link of their own tell. Answers
/// the status of the process, and the disk.
pub fn serve_until<
    D: Disk + Send + Drop,
    T: ClientSource + Send + Drop,
    O: Link,
    F: Link,
    W: Link + Send + Drop,
    R: ServiceRuntime,
>(
    rt: &R,
    alloc: Global,
    source: T,
    disk: D,
    service: Service,
    output: &mut O,
    faults: &mut F,
    warnings: W,
) -> (u8, D)
    requires { IsService service }
    ensures { ServesUntil T.is_over D.keeps D.view D.failed ⟦<ClientConnection<R> as Link>⟧.told O.told F.told service.sessions disk result.1 output.old output.new faults.old faults.new result.0 }
{
    match Desk::open(alloc, disk) {
        Ok(desk) => {
            let blank = Blank::new(8193);
            match serve_desk::<Brand, _, _, _, _, _>(
                rt, alloc, blank, source, desk, service, output, warnings,
            ) {
                Ok((disk, dropped)) => {
                    tell_dropped(faults, dropped);
                    (0, disk)
                }
                Err(Stopped { stop, disk }) => {
                    tell(faults, line_of(stop));
                    (3, disk)
                }
            }
        }
        Err((fault, disk)) => {
            tell_unopened(faults, fault);
            (3, disk)
        }
    }
}

/// The command `serve`: the same for the clients of a listener, until all sessions were served.
pub fn serve_on<
    D: Disk + Send + Drop,
    T: OpenListener<Stream = TcpStream> + Sync,
    O: Link,
    F: Link,
    W: Link + Send + Drop,
    R: ServiceRuntime,
>(
    rt: &R,
    alloc: Global,
    listener: &T,
    disk: D,
    service: Service,
    output: &mut O,
    faults: &mut F,
    warnings: W,
) -> (u8, D)
    requires { IsService service }
    ensures { ServesOn D.keeps D.view D.failed ⟦<ClientConnection<R> as Link>⟧.told O.told F.told service.sessions disk result.1 output.old output.new faults.old faults.new result.0 }
{
    let source = Listened::new(listener);
    serve_until(rt, alloc, source, disk, service, output, faults, warnings)
}
