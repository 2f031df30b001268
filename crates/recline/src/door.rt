//! Where the clients of a long-lived service come in, and where it waits for them.

ghost use Rattle.std.specs.Prelude.{◌≡◌, [], IfOk, IsTrue};

use crate::serving::is_passing;
use client_link::{Link, NonblockingClient, ServiceLink};
use line_disk::Disk;
use mio::unix::SourceFd;
use mio::{Events, Interest, Poll, Registry, Token, Waker};
use session::Guest;
use std::alloc::Global;
use std::io::{self, ErrorKind, Read};
use std::net::{Net, OpenListener, TcpStream};
use std::os::fd::AsRawFd;
use std::time::Duration;

/// How many clients there are at most.
pub const MOST_CLIENTS: usize = 4_096;

/// What the poller calls what is no client.
const WAKER: Token = Token(MOST_CLIENTS);

const LISTENER: Token = Token(MOST_CLIENTS + 1);

const INPUT: Token = Token(MOST_CLIENTS + 2);

/// How many events one look gives at most.
const MOST_EVENTS: usize = 1_024;

/// If the system had no client to give, the service asks again after so many milliseconds.
const PAUSE: u64 = 100;

/// How many bytes of the input are read at once. They are dropped.
const MOST_BYTES: usize = 512;

/// What may have come of a client. It is not relied on.
#[derive(Clone, Copy)]
pub struct Happened {
    /// The place of the client.
    pub place: usize,
    /// Whether bytes may be there.
    pub reads: bool,
    /// Whether it may take more bytes.
    pub writes: bool,
}

/// Where clients come in, and where the service waits for them. If it reports something wrong, that costs time, and never a reply.
pub trait Door<K: ServiceLink> {
    /// Whether the service is to end.
    ghost is_over: { Self → Type 0 };

    /// Whether the door failed for good, so that no client comes in any more.
    ghost has_failed: { Self → Type 0 };

    /// Waits until something happens, for so long at most, and adds what happened to clients. Answers whether clients may wait to be taken: then
    /// each of the next looks says so, until none was there.
    fn wait(&mut self, most: Duration, happened: &mut Vec<Happened>) -> io::Result<bool>;

    /// Takes a client for this place, if one waits. Its session begins with the first read of its link, and nobody else has the link.
    fn accept<D: Disk>(&mut self, place: usize) -> io::Result<Option<Guest<D, K>>>;

    /// Takes a client, if one waits, and closes it at once.
    fn turn_away(&mut self) -> io::Result<bool>;

    /// Whether the service is to end.
    fn is_over(&self) -> bool
        ensures { IsTrue result → is_over self.now };

    /// Whether the door failed for good, so that no client comes in any more.
    fn has_failed(&self) -> bool
        ensures { IsTrue result → has_failed self.now };
}

/// Whether a client may be taken a little later, or at once, after this error of `accept`.
pub(crate) fn is_for_now(error: &io::Error) -> bool {
    is_passing(error) || is_of_one_client(error)
}

/// Whether this error of `accept` says only that this client went, or that a signal came.
pub(crate) fn is_of_one_client(error: &io::Error) -> bool {
    matches!(
        error.kind(),
        ErrorKind::ConnectionAborted | ErrorKind::Interrupted
    )
}

/// What ends a wait at a door.
pub trait Bell {
    /// Ends the wait that is under way, or else the next one.
    fn ring(&self);
}

/// The bell of a poller.
#[derive(Drop)]
pub struct PollerBell(Waker);

impl Bell for PollerBell {
    fn ring(&self) {
        // If it fails, the wait ends a second later.
        let _woken = self.0.wake();
    }
}

/// A listener and an input whose end ends the service, in one poller with all clients. What no poller waits for, as a file, counts as ended at
/// once, and so does an input of which a read fails.
pub struct TcpDoor<L, I> {
    alloc: Global,
    poll: Poll,
    events: Events<Global>,
    listener: L,
    input: Option<I>,
    is_over: bool,
    /// A descriptor that is kept for the client that comes when there is no other one.
    reserve: Option<Registry>,
    /// Whether clients may wait to be taken: the poller does not tell of them again.
    clients: bool,
    /// Whether the last one could not be taken.
    failed: bool,
    /// Whether the poller or the listener failed for good.
    has_failed: bool,
}

impl<L: Drop, I: Drop> Drop for TcpDoor<L, I> {
    fn drop(self) {
        let TcpDoor {
            alloc: _,
            poll: _,
            events: _,
            listener: _,
            input: _,
            is_over: _,
            reserve: _,
            clients: _,
            failed: _,
            has_failed: _,
        } = self;
    }
}

impl<L: OpenListener<Stream = TcpStream> + AsRawFd + Drop, I: Read + AsRawFd + Drop> TcpDoor<L, I> {
    /// The door of this listener, which waits no longer itself, until this input ends, if there is one; and its bell.
    pub fn new(
        net: &impl Net,
        alloc: Global,
        listener: L,
        input: Option<I>,
    ) -> io::Result<(TcpDoor<L, I>, PollerBell)> {
        listener.set_nonblocking(true)?;
        let poll = Poll::new(net)?;
        let waker = Waker::new(poll.registry(), WAKER)?;
        let clients = listener.as_raw_fd();
        poll.registry()
            .register(&mut SourceFd(&clients), LISTENER, Interest::READABLE)?;
        let events = Events::with_capacity(alloc, MOST_EVENTS)?;
        let reserve = poll.registry().try_clone().ok();
        let mut door = TcpDoor {
            alloc,
            poll,
            events,
            listener,
            input,
            is_over: false,
            reserve,
            clients: true,
            failed: false,
            has_failed: false,
        };
        door.watch_input();
        Ok((door, PollerBell(waker)))
    }

    /// Has the poller tell of the input, if there is one.
    fn watch_input(&mut self) {
        if let Some(input) = &self.input {
            let input = input.as_raw_fd();
            let registry = self.poll.registry();
            let watched = registry.register(&mut SourceFd(&input), INPUT, Interest::READABLE);
            self.is_over |= watched.is_err();
        }
    }

    /// Reads the input once, and has the poller tell of it again.
    fn read_input(&mut self) {
        let Some(input) = &mut self.input else {
            return;
        };
        let mut buf = [0u8; MOST_BYTES];
        let goes_on = match input.read(&mut buf) {
            Ok(n) => n > 0,
            Err(error) => matches!(error.kind(), ErrorKind::Interrupted | ErrorKind::WouldBlock),
        };
        let input = input.as_raw_fd();
        let registry = self.poll.registry();
        let is_watched = goes_on
            && registry
                .reregister(&mut SourceFd(&input), INPUT, Interest::READABLE)
                .is_ok();
        self.is_over |= !is_watched;
    }

    /// Keeps a descriptor, if there is one.
    fn keep_reserve(&mut self) {
        if self.reserve.is_none() {
            self.reserve = self.poll.registry().try_clone().ok();
        }
    }

    /// The link of a client, which the poller watches from now on.
    fn link_of(&self, stream: TcpStream, place: usize) -> io::Result<NonblockingClient>
        ensures { IfOk result (λ link. ((⟦<NonblockingClient as Link>⟧.told link).waiting ≡ []) × ((⟦<NonblockingClient as Link>⟧.told link).reads ≡ 0)) }
    {
        let client = stream.as_raw_fd();
        self.poll.registry().register(
            &mut SourceFd(&client),
            Token(place),
            Interest::READABLE | Interest::WRITABLE,
        )?;
        NonblockingClient::of_client(self.alloc, stream)
    }

    /// Takes a client, if one waits.
    fn next_client(&mut self) -> io::Result<Option<TcpStream>> {
        let taken = match self.listener.accept() {
            Ok((stream, _)) => Ok(Some(stream)),
            Err(error) => match error.kind() {
                ErrorKind::WouldBlock => Ok(None),
                _ => Err(error),
            },
        };
        self.clients = !matches!(taken, Ok(None));
        self.failed = taken.is_err();
        if let Err(error) = &taken {
            self.has_failed |= !is_for_now(error);
        }
        taken
    }

    /// If this error says that descriptors are used up, the next client is taken with the one that is kept for that, and is closed at once, so
    /// that it does not wait in vain. The system also says so when no client waits.
    fn turn_away_without_descriptors<D: Disk>(
        &mut self,
        error: io::Error,
    ) -> io::Result<Option<Guest<D, NonblockingClient>>> {
        if !matches!(error.raw_os_error(), Some(23 | 24)) || self.reserve.is_none() {
            return Err(error);
        }
        self.reserve = None;
        let turned_away = self.turn_away_next();
        self.keep_reserve();
        match turned_away {
            Ok(false) => Ok(None),
            _ => Err(error),
        }
    }

    /// Takes a client, if one waits, and closes it.
    fn turn_away_next(&mut self) -> io::Result<bool> {
        match self.next_client()? {
            Some(client) => {
                drop(client);
                Ok(true)
            }
            None => Ok(false),
        }
    }

    /// How long the next look waits: not at all if clients wait to be taken, and a little if one could not be taken.
    fn patience(&self, most: Duration) -> Duration {
        if !self.clients {
            most
        } else if self.failed {
            most.min(Duration::from_millis(PAUSE))
        } else {
            Duration::ZERO
        }
    }
}

impl<L: OpenListener<Stream = TcpStream> + AsRawFd + Drop, I: Read + AsRawFd + Drop> Door<
    NonblockingClient,
> for TcpDoor<L, I> {
    ghost is_over = { λ d. IsTrue d.is_over };

    ghost has_failed = { λ d. IsTrue d.has_failed };

    fn wait(&mut self, most: Duration, happened: &mut Vec<Happened>) -> io::Result<bool> {
        self.keep_reserve();
        let most = self.patience(most);
        if let Err(error) = self.poll.poll(&mut self.events, Some(most)) {
            self.has_failed = true;
            return Err(error);
        }
        let mut input = false;
        for event in &self.events {
            let token = event.token();
            if token == LISTENER {
                self.clients = true;
            } else if token == INPUT {
                input = true;
            } else if token != WAKER {
                happened.push(Happened {
                    place: token.0,
                    reads: event.is_readable() || event.is_read_closed() || event.is_error(),
                    writes: event.is_writable() || event.is_write_closed() || event.is_error(),
                })?;
            }
        }
        if input {
            self.read_input();
        }
        Ok(self.clients)
    }

    fn accept<D: Disk>(&mut self, place: usize) -> io::Result<Option<Guest<D, NonblockingClient>>> {
        let stream = match self.next_client() {
            Ok(Some(stream)) => stream,
            Ok(None) => return Ok(None),
            Err(error) => return self.turn_away_without_descriptors(error),
        };
        match self.link_of(stream, place) {
            Ok(link) => Ok(Some(Guest::new(self.alloc, link))),
            // The client is closed, and others may be taken later.
            Err(_) => Err(io::Error::from(ErrorKind::OutOfMemory)),
        }
    }

    fn turn_away(&mut self) -> io::Result<bool> {
        self.turn_away_next()
    }

    fn is_over(&self) -> bool {
        self.is_over
    }

    fn has_failed(&self) -> bool {
        self.has_failed
    }
}
