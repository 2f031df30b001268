//! A service that ends with an input.

ghost use Rattle.std.specs.Prelude.{◌≡◌, IsTrue};

use crate::clients::ClientSource;
use client_link::EndRequest;
use mio::unix::SourceFd;
use mio::{Events, Interest, Poll, Token};
use std::alloc::Global;
use std::io::{self, ErrorKind, Read};
use std::net::{Net, OpenListener, SocketAddr, TcpStream};
use std::os::fd::AsRawFd;
use std::time::Duration;

/// What the poller calls the listener.
const CLIENTS: Token = Token(0);

/// What it calls the input.
const INPUT: Token = Token(1);

/// How many events one look gives at most.
const MOST_EVENTS: usize = 8;

/// How many bytes of the input are read at once. They are dropped.
const MOST_BYTES: usize = 512;

/// The clients of a listener, until an input ends: no thread waits for the input, since one poller waits for both. What no poller waits for,
/// as a file, counts as ended at once, and so does an input of which a read fails.
pub struct UntilInputEnds<L, I> {
    listener: L,
    input: I,
    poll: Poll,
    events: Events<Global>,
    end: Option<EndRequest>,
    is_over: bool,
}

impl<L: Drop, I: Drop> Drop for UntilInputEnds<L, I> {
    fn drop(self) {
        let UntilInputEnds {
            listener: _,
            input: _,
            poll: _,
            events: _,
            end: _,
            is_over: _,
        } = self;
    }
}

impl<L: OpenListener<Stream = TcpStream> + AsRawFd + Drop, I: Read + AsRawFd + Drop> UntilInputEnds<
    L,
    I,
> {
    /// The clients of this listener, which waits no longer itself, until this input ends.
    pub fn new(
        net: &impl Net,
        alloc: Global,
        listener: L,
        input: I,
    ) -> io::Result<UntilInputEnds<L, I>> {
        listener.set_nonblocking(true)?;
        let poll = Poll::new(net)?;
        let clients = listener.as_raw_fd();
        poll.registry()
            .register(&mut SourceFd(&clients), CLIENTS, Interest::READABLE)?;
        let events = Events::with_capacity(alloc, MOST_EVENTS)?;
        let end = Some(EndRequest::new(alloc)?);
        let mut source = UntilInputEnds {
            listener,
            input,
            poll,
            events,
            end,
            is_over: false,
        };
        source.watch_input();
        Ok(source)
    }

    /// Has the poller tell of the input.
    fn watch_input(&mut self) {
        let input = self.input.as_raw_fd();
        let registry = self.poll.registry();
        if registry
            .register(&mut SourceFd(&input), INPUT, Interest::READABLE)
            .is_err()
        {
            self.finish();
        }
    }

    /// The service is to end.
    fn finish(&mut self) {
        self.is_over = true;
        if let Some(end) = &self.end {
            end.make();
        }
    }

    /// Reads the input once, and has the poller tell of it again.
    fn read_input(&mut self) {
        let mut buf = [0u8; MOST_BYTES];
        let goes_on = match self.input.read(&mut buf) {
            Ok(n) => n > 0,
            Err(error) => matches!(error.kind(), ErrorKind::Interrupted | ErrorKind::WouldBlock),
        };
        let input = self.input.as_raw_fd();
        let registry = self.poll.registry();
        let is_watched = goes_on
            && registry
                .reregister(&mut SourceFd(&input), INPUT, Interest::READABLE)
                .is_ok();
        if !is_watched {
            self.finish();
        }
    }

    /// Waits for a client or for the input, and reads the input where something is there.
    fn wait(&mut self, most: Option<Duration>) -> io::Result<()> {
        self.poll.poll(&mut self.events, most)?;
        if self.events.iter().any(|event| event.token() == INPUT) {
            self.read_input();
        }
        Ok(())
    }
}

impl<L: OpenListener<Stream = TcpStream> + AsRawFd + Drop, I: Read + AsRawFd + Drop> ClientSource
    for UntilInputEnds<L, I> {
    ghost is_over = { λ s. IsTrue s.is_over };

    fn next_client(&mut self) -> io::Result<Option<TcpStream>> {
        for _ in 0..u64::MAX {
            if self.look() {
                return Ok(None);
            }
            match self.listener.accept() {
                Ok((stream, _)) => return Ok(Some(stream)),
                Err(error) => if !matches!(error.kind(), ErrorKind::WouldBlock) {
                    return Err(error);
                },
            }
            self.wait(None)?;
        }
        Err(io::Error::from(ErrorKind::TimedOut))
    }

    fn look(&mut self) -> bool {
        // Where the poller fails, the next look tells more.
        let _looked = self.is_over || self.wait(Some(Duration::ZERO)).is_ok();
        self.is_over
    }

    fn end(&self) -> &Option<EndRequest> {
        &self.end
    }

    fn local_addr(&self) -> io::Result<SocketAddr> {
        self.listener.local_addr()
    }
}
