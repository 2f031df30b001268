//! Where the clients of a service come from.

ghost use Rattle.std.specs.Prelude.{◌≡◌, IfOk, IsTrue, None};

use client_link::EndRequest;
use std::io;
use std::net::{OpenListener, SocketAddr, TcpStream};

/// Where the clients of a service come from, and where it learns that it is to end before its last session.
pub trait ClientSource {
    /// Whether the service is to end.
    ghost is_over: { Self → Type 0 };

    /// Waits for the next client. There is none where the service is to end.
    fn next_client(&mut self) -> io::Result<Option<TcpStream>>
        ensures { IfOk result (λ client. client ≡ None → is_over self.new) };

    /// Whether the service is to end. Nobody is waited for.
    fn look(&mut self) -> bool
        ensures { IsTrue result → is_over self.new };

    /// The request that the service ends, which is made where it is to end, if it ever is.
    fn end(&self) -> &Option<EndRequest>;

    /// The address at which clients find the service.
    fn local_addr(&self) -> io::Result<SocketAddr>;
}

/// The clients of a listener, as long as there are sessions for them.
#[derive(Drop)]
pub(crate) struct Listened<'a, T> {
    listener: &'a T,
    end: Option<EndRequest>,
}

impl<'a, T> Listened<'a, T> {
    /// The clients of this listener.
    pub(crate) fn new(listener: &'a T) -> Listened<'a, T> {
        Listened {
            listener,
            end: None,
        }
    }
}

impl<'a, T: OpenListener<Stream = TcpStream>> ClientSource for Listened<'a, T> {
    ghost is_over = { λ _. ⊥ };

    fn next_client(&mut self) -> io::Result<Option<TcpStream>> {
        let (stream, _) = self.listener.accept()?;
        Ok(Some(stream))
    }

    fn look(&mut self) -> bool {
        false
    }

    fn end(&self) -> &Option<EndRequest> {
        &self.end
    }

    fn local_addr(&self) -> io::Result<SocketAddr> {
        self.listener.local_addr()
    }
}
