//! A service over a record file.

ghost use Rattle.std.specs.Thread.{IsSend, IsSync};
ghost use Rattle.recline.specs.Lasting.{IsLastingService};
ghost use Rattle.recline.specs.Serving.{IsService};

use crate::files::open_file;
use crate::notices::{HandedOver, MOST_NOTICES, write_notices};
use crate::reporting::{ReportedDisk, ReportedListener, Reporter, tell_whys};
use crate::telling::{FAULT_LINE, Teller, Why};
use client_link::{Link, NonblockingClient, Streams};
use crossbeam_channel::{Receiver, Sender, bounded};
use line_disk::{FileDisk, Modelled};
use recline::{
    Bell, ClientSource, Door, LastingService, Service, ServiceRuntime, TcpDoor, UntilInputEnds,
    serve_lasting, serve_on, serve_until,
};
use std::alloc::{AllocError, Global};
use std::io::{self, BufWriter, Write};
use std::net::{Ipv4Addr, OpenListener, SocketAddr, SocketAddrV4, TcpListener};
use std::thread::{scope, scope_env};

/// The port of the machine itself that is listened on, or the status, where the cause is told.
fn listener_on(teller: Teller<'_>, port: u16) -> Result<TcpListener, u8> {
    let address = SocketAddr::V4(SocketAddrV4::new(Ipv4Addr::LOCALHOST, port));
    match TcpListener::bind(teller.rt, address) {
        Ok(listener) => Ok(listener),
        Err(error) => {
            let status = teller.fault("device");
            teller.explain_port(port, &error);
            Err(status)
        }
    }
}

/// How many sessions a service has, if it does not last, how many workers, and how many seconds a client may rest, if there is a limit.
#[derive(Clone, Copy)]
pub(crate) struct Numbers {
    pub(crate) sessions: Option<u64>,
    pub(crate) workers: u64,
    pub(crate) idle: Option<u64>,
}

/// Where a service listens, and whether the end of standard input ends it.
#[derive(Clone, Copy)]
pub(crate) struct Place {
    pub(crate) port: u16,
    pub(crate) until_input_ends: bool,
}

/// What a service stands on: the disk of its record file, what it listens on, and whether the end of standard input ends it.
type Base = (FileDisk<Modelled>, TcpListener, bool);

/// The disk over the record file of this path and the listener at this place, or the status, where the cause is told.
fn base_of(teller: Teller<'_>, path: &str, place: Place) -> Result<Base, u8> {
    let disk = open_file(teller, path)?;
    let listener = listener_on(teller, place.port)?;
    Ok((disk, listener, place.until_input_ends))
}

/// Serves clients that connect to this place of the machine itself over the record file of this path, and answers the status and the output.
pub(crate) fn serve_over_file<T: ServiceRuntime, O: Link + Drop, F: Link + Drop>(
    teller: Teller<'_>,
    threads: &T,
    path: &str,
    place: Place,
    numbers: Numbers,
    output: O,
    faults: F,
) -> (u8, O) {
    match base_of(teller, path, place) {
        Ok(base) => serve_over_base(teller, threads, path, base, numbers, output, faults),
        Err(status) => (status, output),
    }
}

/// The same over this disk and this listener.
fn serve_over_base<T: ServiceRuntime, O: Link + Drop, F: Link + Drop>(
    teller: Teller<'_>,
    threads: &T,
    path: &str,
    base: Base,
    numbers: Numbers,
    output: O,
    faults: F,
) -> (u8, O) {
    if teller.explains {
        serve_with_reasons(teller, threads, path, base, numbers, output, faults)
    } else {
        serve_without_reasons(teller, threads, base, numbers, output, faults)
    }
}

/// The same, and nobody says why one of these fails.
fn serve_without_reasons<T: ServiceRuntime, O: Link + Drop, F: Link + Drop>(
    teller: Teller<'_>,
    threads: &T,
    base: Base,
    numbers: Numbers,
    output: O,
    faults: F,
) -> (u8, O) {
    let (disk, listener, until_input_ends) = base;
    let disk = ReportedDisk::new(disk, None::<Reporter<T>>);
    let listener = ReportedListener::new(listener, None::<Reporter<T>>);
    let clients = Clients {
        listener,
        until_input_ends,
    };
    serve(teller, threads, disk, clients, numbers, output, faults)
}

/// So many bytes a line that says why has at most beside the path.
const ROOM_BESIDE_PATH: usize = 256;

/// What a service that says why something fails has beside its disk and its listener.
#[derive(Drop)]
struct Explaining<T: ServiceRuntime> {
    /// Hands over why the disk fails.
    of_disk: Reporter<T>,
    /// Hands over why the listener fails.
    of_listener: Reporter<T>,
    /// Where both come out.
    told: Receiver<Why>,
    /// Dropped when the service ends.
    goes_on: Sender<()>,
    /// Where that is seen.
    going: Receiver<()>,
    /// Room for a line that says why.
    line: String,
}

/// A reporter of this channel, if there is memory for it.
fn reporter<T: ServiceRuntime>(threads: &T, whys: Sender<Why>) -> Option<Reporter<T>> {
    let handle: Result<T, AllocError> = threads.clone();
    match handle {
        Ok(handle) => Some(Reporter::new(handle, whys)),
        Err(_) => None,
    }
}

/// Two reporters of one channel, if there is memory for them.
fn reporters<T: ServiceRuntime>(
    threads: &T,
    whys: Sender<Why>,
) -> Option<(Reporter<T>, Reporter<T>)> {
    let more: Result<Sender<Why>, AllocError> = whys.clone();
    let of_disk = reporter(threads, whys)?;
    let of_listener = reporter(threads, more.ok()?)?;
    Some((of_disk, of_listener))
}

/// Two reporters and the other end of their channel, if there is memory for them.
fn reporters_with_end<T: ServiceRuntime>(
    alloc: Global,
    threads: &T,
) -> Option<(Reporter<T>, Reporter<T>, Receiver<Why>)> {
    let (whys, told) = bounded::<Why, _>(alloc, 2).ok()?;
    let (of_disk, of_listener) = reporters(threads, whys)?;
    Some((of_disk, of_listener, told))
}

impl<T: ServiceRuntime> Explaining<T> {
    /// All of it, with room for lines that name this path, if there is memory for it.
    fn new(alloc: Global, threads: &T, path: &str) -> Option<Explaining<T>> {
        let line = String::with_capacity(alloc, path.len().saturating_add(ROOM_BESIDE_PATH)).ok()?;
        let (goes_on, going) = bounded::<(), _>(alloc, 1).ok()?;
        let (of_disk, of_listener, told) = reporters_with_end(alloc, threads)?;
        Some(Explaining {
            of_disk,
            of_listener,
            told,
            goes_on,
            going,
            line,
        })
    }
}

/// Serves clients over this disk and this listener, and says why one of these fails while it goes on, if a thread is available for that.
fn serve_with_reasons<T: ServiceRuntime, O: Link + Drop, F: Link + Drop>(
    teller: Teller<'_>,
    threads: &T,
    path: &str,
    base: Base,
    numbers: Numbers,
    output: O,
    faults: F,
) -> (u8, O) {
    match Explaining::new(teller.rt.alloc(), threads, path) {
        Some(explaining) => {
            let parts = (base, explaining);
            serve_explaining(teller, threads, path, parts, numbers, output, faults)
        }
        None => (teller.fault("memory"), output),
    }
}

/// The same with what that needs.
fn serve_explaining<T: ServiceRuntime, O: Link + Drop, F: Link + Drop>(
    teller: Teller<'_>,
    threads: &T,
    path: &str,
    parts: (Base, Explaining<T>),
    numbers: Numbers,
    output: O,
    faults: F,
) -> (u8, O) {
    let ((disk, listener, until_input_ends), explaining) = parts;
    let Explaining {
        of_disk,
        of_listener,
        told,
        goes_on,
        going,
        line,
    } = explaining;
    let errors = teller.rt.stderr();
    let disk = ReportedDisk::new(disk, Some(of_disk));
    let clients = Clients {
        listener: ReportedListener::new(listener, Some(of_listener)),
        until_input_ends,
    };
    scope(
        scope_env(),
        threads,
        move |scope| -> (u8, O)
            requires { IsSync T.row × IsSend T.row }
        {
            let teller_of_whys = scope.spawn(
                move ||
                    requires { IsSync T.row × IsSend T.row }
                {
                    let (mut line, mut errors) = (line, errors);
                    tell_whys(threads, &told, &going, path, &mut line, &mut errors)
                },
            );
            // It takes both reporters, so behind it nobody is left to hand anything over.
            let ended = serve(teller, threads, disk, clients, numbers, output, faults);
            drop(goes_on);
            if let Ok(teller_of_whys) = teller_of_whys {
                teller_of_whys.join(threads);
            }
            ended
        },
    )
}

/// The clients of a listener, to the last session, or until standard input ends.
#[derive(Drop)]
struct Clients<T: ServiceRuntime> {
    listener: ReportedListener<T>,
    until_input_ends: bool,
}

/// Serves these clients over this disk.
fn serve<T: ServiceRuntime, O: Link + Drop, F: Link + Drop>(
    teller: Teller<'_>,
    threads: &T,
    disk: ReportedDisk<Modelled, T>,
    clients: Clients<T>,
    numbers: Numbers,
    output: O,
    faults: F,
) -> (u8, O) {
    let Numbers {
        sessions,
        workers,
        idle,
    } = numbers;
    let Some(sessions) = sessions else {
        return serve_on_end(teller, threads, disk, clients, numbers, output, faults);
    };
    match Service::new(sessions, workers, idle) {
        Some(service) => serve_sessions(teller, threads, disk, clients, service, output, faults),
        // Numbers out of their limits are refused with the words.
        None => (2, output),
    }
}

/// Serves these clients over this disk to the last session, or until standard input ends.
fn serve_sessions<T: ServiceRuntime, O: Link + Drop, F: Link + Drop>(
    teller: Teller<'_>,
    threads: &T,
    disk: ReportedDisk<Modelled, T>,
    clients: Clients<T>,
    service: Service,
    output: O,
    faults: F,
) -> (u8, O)
    requires { IsService service }
{
    let rt = teller.rt;
    // Lines of clients that wait are told while others may be served, so they take a way of their own.
    let Ok(errors) = BufWriter::with_capacity(rt.alloc(), FAULT_LINE, rt.stderr()) else {
        return (teller.fault("memory"), output);
    };
    let ends = (output, faults, Streams::new(io::empty(), errors));
    let Clients {
        listener,
        until_input_ends,
    } = clients;
    if !until_input_ends {
        return serve_all(threads, rt.alloc(), disk, listener, service, ends);
    }
    match UntilInputEnds::new(rt, rt.alloc(), listener, rt.stdin()) {
        Ok(source) => serve_source(threads, rt.alloc(), disk, source, service, ends),
        Err(error) => {
            let (output, _faults, _warnings) = ends;
            let status = teller.fault("device");
            teller.explain_poller(&error);
            (status, output)
        }
    }
}

/// Serves the clients of this listener to the last session. The ends are the output, the faults, and the lines of clients that wait.
fn serve_all<T: ServiceRuntime, O: Link, F: Link + Drop, W: Link + Send + Drop>(
    threads: &T,
    alloc: Global,
    disk: ReportedDisk<Modelled, T>,
    listener: ReportedListener<T>,
    service: Service,
    ends: (O, F, W),
) -> (u8, O)
    requires { IsService service }
{
    let (mut output, mut faults, warnings) = ends;
    let status = serve_by_reference(
        threads,
        alloc,
        disk,
        &listener,
        service,
        &mut output,
        &mut faults,
        warnings,
    );
    (status, output)
}

/// The same by reference. It stands alone, since its clause is long.
fn serve_by_reference<T: ServiceRuntime, O: Link, F: Link, W: Link + Send + Drop>(
    threads: &T,
    alloc: Global,
    disk: ReportedDisk<Modelled, T>,
    listener: &ReportedListener<T>,
    service: Service,
    output: &mut O,
    faults: &mut F,
    warnings: W,
) -> u8
    requires { IsService service }
{
    let (status, _disk) = serve_on(
        threads, alloc, listener, disk, service, output, faults, warnings,
    );
    status
}

/// Serves the clients of this source until the service is to end.
fn serve_source<
    T: ServiceRuntime,
    S: ClientSource + Send + Drop,
    O: Link,
    F: Link + Drop,
    W: Link + Send + Drop,
>(
    threads: &T,
    alloc: Global,
    disk: ReportedDisk<Modelled, T>,
    source: S,
    service: Service,
    ends: (O, F, W),
) -> (u8, O)
    requires { IsService service }
{
    let (mut output, mut faults, warnings) = ends;
    let status = serve_source_by_reference(
        threads,
        alloc,
        disk,
        source,
        service,
        &mut output,
        &mut faults,
        warnings,
    );
    (status, output)
}

/// The same by reference.
fn serve_source_by_reference<
    T: ServiceRuntime,
    S: ClientSource + Send + Drop,
    O: Link,
    F: Link,
    W: Link + Send + Drop,
>(
    threads: &T,
    alloc: Global,
    disk: ReportedDisk<Modelled, T>,
    source: S,
    service: Service,
    output: &mut O,
    faults: &mut F,
    warnings: W,
) -> u8
    requires { IsService service }
{
    let (status, _disk) = serve_until(
        threads, alloc, source, disk, service, output, faults, warnings,
    );
    status
}

/// Serves these clients over this disk until standard input ends, if that is to end the service. Another thread writes what is told meanwhile,
/// so that no client waits for standard error.
fn serve_on_end<T: ServiceRuntime, O: Link + Drop, F: Link + Drop>(
    teller: Teller<'_>,
    threads: &T,
    disk: ReportedDisk<Modelled, T>,
    clients: Clients<T>,
    numbers: Numbers,
    output: O,
    faults: F,
) -> (u8, O) {
    let alloc = teller.rt.alloc();
    let handle: Result<T, AllocError> = threads.clone();
    let (Ok(handle), Ok((notices, told))) = (handle, bounded::<Vec<u8>, _>(alloc, MOST_NOTICES))
    else {
        return (teller.fault("memory"), output);
    };
    let errors = teller.rt.stderr();
    let notices = HandedOver::new(handle, alloc, notices);
    scope(
        scope_env(),
        threads,
        move |scope| -> (u8, O)
            requires { IsSync T.row × IsSend T.row }
        {
            let writer = scope.spawn(
                move ||
                    requires { IsSync T.row × IsSend T.row }
                {
                    let mut errors = errors;
                    write_notices(threads, &told, &mut errors)
                },
            );
            // It takes the notices, so behind it nobody is left to hand any over.
            let ended = serve_telling(
                teller, threads, disk, clients, numbers, notices, output, faults,
            );
            if let Ok(writer) = writer {
                writer.join(threads);
            }
            ended
        },
    )
}

/// The same, where what is told meanwhile goes to this writer.
fn serve_telling<T: ServiceRuntime, N: Write + Send + Drop, O: Link + Drop, F: Link + Drop>(
    teller: Teller<'_>,
    threads: &T,
    disk: ReportedDisk<Modelled, T>,
    clients: Clients<T>,
    numbers: Numbers,
    notices: N,
    output: O,
    faults: F,
) -> (u8, O) {
    let Some(service) = LastingService::new(numbers.workers, numbers.idle) else {
        // Numbers out of their limits are refused with the words.
        return (2, output);
    };
    let rt = teller.rt;
    let Clients {
        listener,
        until_input_ends,
    } = clients;
    let Ok(address) = listener.local_addr() else {
        return (teller.fault("device"), output);
    };
    let Ok(notices) = BufWriter::with_capacity(rt.alloc(), FAULT_LINE, notices) else {
        return (teller.fault("memory"), output);
    };
    let warnings = Streams::new(io::empty(), notices);
    let input = if until_input_ends {
        Some(rt.stdin())
    } else {
        None
    };
    match TcpDoor::new(rt, rt.alloc(), listener, input) {
        Ok((door, bell)) => {
            let (mut output, mut faults) = (output, faults);
            let status = serve_at_door(
                threads,
                rt.alloc(),
                (door, bell, address.port()),
                disk,
                service,
                &mut output,
                &mut faults,
                warnings,
            );
            (status, output)
        }
        Err(error) => {
            let status = teller.fault("device");
            teller.explain_poller(&error);
            (status, output)
        }
    }
}

/// Serves the clients that come in at a door, with its bell and its port. It stands alone, since its clause is long.
fn serve_at_door<
    T: ServiceRuntime,
    S: Door<NonblockingClient> + Send + Drop,
    B: Bell + Sync + Drop,
    O: Link,
    F: Link,
    W: Link + Send + Drop,
>(
    threads: &T,
    alloc: Global,
    entrance: (S, B, u16),
    disk: ReportedDisk<Modelled, T>,
    service: LastingService,
    output: &mut O,
    faults: &mut F,
    warnings: W,
) -> u8
    requires { IsLastingService service }
{
    let (door, bell, port) = entrance;
    let (status, _disk) = serve_lasting(
        threads, alloc, door, &bell, port, disk, service, output, faults, warnings,
    );
    status
}
